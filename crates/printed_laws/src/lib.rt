//! What `dfc` prints can be read again: laws over the texts that `graph_jobs` and `game_jobs` tell and those that `printed_graphs` reads. No
//! code of the compiler is here.
#![tactic(auto)]

mod flows;
mod graphs;
mod nets;
mod numbers;
mod profiles;
mod programs;
mod regions;
mod traces;

pub use flows::flows_are_short;
pub use graphs::graphs_are_read;
pub use nets::nets_are_short;
pub use profiles::profiles_are_read;
pub use programs::programs_are_short;
pub use regions::regions_are_read;
pub use traces::traces_are_read;
