//! Decides the requests of a run, from their classes and the free frames of the target.
#![tactic(auto)]

pub mod laws;
mod outcome;
mod planning;
mod search;

pub use nm_types::PageMove;
pub use outcome::Plan;
pub use planning::plan;
