//! The lowest parts of an index: one block each.

ghost use Rattle.std.specs.Prelude.{◌≡◌, ◌≤◌, ◌<◌};

use crate::Entry;
use crate::leaf::list_leaf;
use crate::places::Places;
use crate::slot::Slot;
use crate::subtree::Subtree;
use nm_types::Vpn;
use std::alloc::{AllocError, Allocator};

/// A block with its slot.
#[derive(Drop)]
pub(crate) struct Cell {
    block: u64,
    slot: Slot,
}

impl<A: Allocator + Copy> Subtree<A> for Cell {
    ghost use Rattle.std.specs.Prelude.{◌≡◌, [], ◌∷◌};
    ghost use Rattle.nm_tables.specs.laws.Cells.{cell_ordered, cell_part, cell_filled};

    ghost slots = { λ c. (c.block, c.slot) ∷ [] };

    ghost number = { λ v. v };

    ghost whole = { λ c. Unit {0} };

    ghost is_in = { λ c i. c.block ≡ i };

    ghost takes = { λ c v. c.block ≡ v };

    fn number_of(block: u64) -> u64 {
        block
    }

    fn holding(_alloc: A, block: u64, slot: Slot) -> Result<Self, AllocError> {
        Ok(Cell { block, slot })
    }

    fn get(&self, _block: u64) -> Option<Slot> {
        Some(self.slot)
    }

    fn first_from(&self, at: u64) -> Option<(u64, Slot)> {
        if self.block < at {
            None
        } else {
            Some((self.block, self.slot))
        }
    }

    fn list_within(
        &self,
        leaves: &[Places],
        first: Vpn,
        last: Vpn,
        list: &mut Vec<(Vpn, Entry), A>,
    ) -> Result<(), AllocError> {
        match self.slot {
            Slot::Lone(own, entry) => {
                if own < first || last < own {
                    return Ok(());
                }
                list.push((own, entry))?;
                Ok(())
            }
            Slot::Leaf(number) => list_leaf(&leaves[number], first, last, list),
        }
    }

    fn set(&mut self, _alloc: A, _block: u64, slot: Slot) -> Result<(), AllocError> {
        self.slot = slot;
        Ok(())
    }

    fn replace(&mut self, _block: u64, slot: Slot) {
        self.slot = slot;
    }

    fn remove(&mut self, _block: u64) -> bool {
        true
    }

    ghost ordered = { λ x w. cell_ordered x.block x.slot };

    ghost filled = { λ x w. cell_filled x.block x.slot };

    ghost parted = { λ x i w n. cell_part x.block x.slot i n };

    ghost takes_own = { λ x v n. n };

    ghost upwards = { λ v w l. l };
}
