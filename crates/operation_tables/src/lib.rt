//! The operations of a program as the nodes of a net, and the tables by which a firing looks up what it needs.
#![tactic(auto)]

mod entries;
mod graph;
mod hops;
mod lookups;
mod names;
mod plan;
mod row_laws;
mod rows;
mod tables;
mod takers;
mod telling;

pub use graph::OpGraph;
pub use hops::Hop;
pub use lookups::OperationBoard;
pub use plan::{OperationPlan, PieceOperations};
pub use rows::{MANY, Row};
pub use tables::OperationTables;
pub use telling::{OpName, operand_at, work_name};
