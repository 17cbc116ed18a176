//! Numbers of different kinds, each a type of its own so that none is taken for another.

mod frames;
mod nodes;
mod pids;
mod vpns;

pub use frames::FrameId;
pub use nodes::NodeId;
pub use pids::Pid;
pub use vpns::Vpn;
