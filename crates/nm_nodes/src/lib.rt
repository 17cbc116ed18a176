//! The free frames of each node of a machine.
#![tactic(auto)]

mod list;
mod pool;

pub use pool::NodePool;
