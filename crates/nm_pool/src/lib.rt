//! The memory of a machine: the frames of all nodes with their bytes, each node's free frames, and the frames while the
//! bytes of some are out to be copied.
#![tactic(auto)]

mod answers;
mod audit;
mod frames;
mod pending_access;

pub use answers::AccessAnswer;
pub use frames::{FramePool, FramesInFlight};
pub use pending_access::PendingAccess;
