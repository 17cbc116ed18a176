//! The bytes of a machine's frames, and the copying of one frame's bytes to another.
#![tactic(auto)]

mod buf;
mod bytes;
mod gap;
mod job;
mod slot;
mod store;

pub use buf::FrameBuf;
pub use job::CopyJob;
pub use store::FrameStore;
