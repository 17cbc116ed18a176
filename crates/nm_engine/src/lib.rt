//! The machine: processes, areas and pages over nodes of frames, and moving pages from one node to another.
#![tactic(auto)]

mod answers;
pub mod laws;
mod machine;
mod planned_run;
mod prepared_run;
mod resolved_address;
mod run_crew;
mod run_in_flight;
mod touch;

pub use answers::RunAnswer;
pub use machine::{Machine, Totals};
pub use nm_crew::FIXED_SEED;
pub use nm_pool::AccessAnswer;
pub use nm_types::{Access, MachineError};
pub use run_crew::RunCrew;
