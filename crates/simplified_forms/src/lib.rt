//! The simplified form of a program: what is known of words and expressions stands as constants, branches that always go one way are gone, and
//! so are statements to which control can't come.
#![tactic(auto)]

mod counts;
mod ends;
mod folding;
mod items;
mod literals;
mod loops;
mod own;
mod plan;
mod scene;
mod simplified;
mod statement_counts;
mod statements;
mod ways;

pub use ends::FlatEnd;
pub use folding::{FoldedExpr, fold_expr};
pub use own::own_pieces;
pub use simplified::{MOST_STATEMENTS, Simplified, has_many_statements, simplify};
