//! The types that all crates of the model share: nodes, frames, pages, pids, errors, and the geometry of a machine.
#![tactic(auto)]

mod access;
mod area;
mod entry;
mod errno;
mod flags;
mod geometry;
pub mod laws;
pub mod limits;
mod located_page;
mod machine_error;
mod mask;
mod numbers;
mod page;
mod page_move;
mod process;
mod request;
mod seen;
mod sight;

pub use access::Access;
pub use area::{Area, Policy, Segment};
pub use entry::Entry;
pub use errno::Errno;
pub use flags::MoveFlags;
pub use geometry::{Geometry, GeometryError};
pub use located_page::LocatedPage;
pub use machine_error::MachineError;
pub use mask::NodeMask;
pub use numbers::{FrameId, NodeId, Pid, Vpn};
pub use page::Page;
pub use page_move::PageMove;
pub use process::ProcessInfo;
pub use request::{Class, Request, Wanted};
pub use seen::{PageView, Seen};
pub use sight::Sight;
