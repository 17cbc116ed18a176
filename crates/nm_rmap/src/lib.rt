//! The reverse map of a machine: which page numbers of which processes map each frame, and how many pins each frame
//! has.
#![tactic(auto)]

pub mod laws;
mod mappings;
mod reverse_map;

pub use mappings::FrameMappers;
pub use reverse_map::ReverseMap;
