//! Where a page table stores the entries of a block of page numbers.

use crate::Entry;
use nm_types::Vpn;

/// Where the entries are of an aligned block of 512 page numbers that has any.
#[derive(Clone, Copy)]
pub(crate) enum Slot {
    /// One entry, at this page number, without a leaf.
    Lone(Vpn, Entry),
    /// The leaf with this index, which has all of the block's entries.
    Leaf(usize),
}
