//! The page table of a process: the entry at each page number that is not absent.
#![tactic(auto)]

mod blocks;
mod branch;
mod cell;
mod index;
pub mod laws;
mod leaf;
mod marks;
mod node;
mod places;
mod slot;
mod subtree;
mod table;

pub use nm_types::Entry;
pub use table::PageTable;
