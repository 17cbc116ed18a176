//! The address spaces of a machine's processes: their page tables and areas, and for each frame the entries that name
//! it and its pins.
#![tactic(auto)]

mod address_spaces;
mod entry;
mod pid_hash;
mod process;
mod process_table;

pub use address_spaces::held::HeldSpaces;
pub use address_spaces::{AddressSpaces, PlacedSight};
pub use entry::frame_named;
