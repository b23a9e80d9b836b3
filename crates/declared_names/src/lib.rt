//! The names of statements, what their declarations say of them, and the kinds of what is made of them (ANSI X3.9-1978,
//! sections 4, 6 and 8).
#![tactic(auto)]

mod appearances;
mod appearing_names;
mod declarations;
mod intrinsics;
mod kinds;
mod name_declarations;
mod statement_kinds;
mod type_faults;

pub use appearances::declared_names;
pub use appearing_names::AppearingNames;
pub use intrinsics::Function;
pub use kinds::{is_array, kind_of};
pub use name_declarations::NameDeclarations;
pub use type_faults::first_wrong_type;
