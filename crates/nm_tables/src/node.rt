//! The inner nodes of an index that have several parts.

ghost use Rattle.std.specs.Prelude.{◌≡◌, [], IfOk, IfErr};
ghost use Rattle.std.specs.List.Sorted.{IsStrictlySortedBy};
ghost use Rattle.std.specs.Map.{keys_of};
ghost use Rattle.std.specs.Ordering.{nat_cmp};
ghost use Rattle.nm_tables.specs.definitions.Parts.{StandsAt, FitsAt, BeginsAt};

use crate::Entry;
use crate::leaf::block_of;
use crate::places::Places;
use crate::slot::Slot;
use crate::subtree::Subtree;
use nm_types::Vpn;
use std::alloc::{AllocError, Allocator};

/// The parts of an inner node that has several, by their numbers, in ascending order; the node has 512 places for them.
/// A part's place is the last nine bits of its number.
#[derive(Drop)]
pub(crate) struct Node<T: Drop, A: Allocator + Copy> {
    pub(crate) parts: Vec<(u64, T), A>,
}

impl<T: Subtree<A>, A: Allocator + Copy> Node<T, A> {
    /// Makes a node without parts. Does not allocate.
    pub(crate) fn new(alloc: A) -> Self
        ensures { result.parts.items ≡ [] }
    {
        Node {
            parts: Vec::new(alloc),
        }
    }
}

/// The index of the part with this number, or the index where it would be inserted.
fn place_of<T: Drop>(parts: &[(u64, T)], number: u64) -> Result<usize, usize>
    requires ordered { IsStrictlySortedBy nat_cmp (keys_of parts.now) }
    ensures found { IfOk result (StandsAt parts.now number) }
    ensures fits { IfErr result (FitsAt parts.now number) }
{
    let mut low = 0;
    let mut high = parts.len();
    while low < high {
        let middle = low + (high - low) / 2;
        let at = parts[middle].0;
        if at == number {
            return Ok(middle);
        }
        if at < number {
            low = middle + 1;
        } else {
            high = middle;
        }
    }
    Err(low)
}

/// The index of the first part with this number or a higher one. The number of parts if there is none.
fn place_from<T: Drop>(parts: &[(u64, T)], number: u64) -> usize
    requires ordered { IsStrictlySortedBy nat_cmp (keys_of parts.now) }
    ensures { BeginsAt parts.now number result }
{
    match place_of(parts, number) {
        Ok(place) => place,
        Err(place) => place,
    }
}

impl<T: Subtree<A>, A: Allocator + Copy> Subtree<A> for Node<T, A> {
    ghost use Rattle.std.specs.Prelude.{◌≡◌, ◌/◌};
    ghost use Rattle.std.specs.List.{AllByRecursion};
    ghost use Rattle.std.specs.Map.{keys_of};
    ghost use Rattle.nm_tables.specs.definitions.Tree.{flatten};
    ghost use Rattle.nm_tables.specs.definitions.Nodes.{slots_shown, IsFilledNode, node_ordered, node_filled, node_part, upwards_again};

    ghost slots = { λ n. flatten (slots_shown T.slots n.parts.items) };

    ghost number = { λ v. T.number v / 512 };

    ghost whole = { λ n. IsFilledNode T.whole T.is_in n.parts.items };

    ghost is_in = { λ n i. AllByRecursion (λ k. k / 512 ≡ i) (keys_of n.parts.items) };

    ghost takes = { λ n v. Unit {0} };

    fn number_of(block: u64) -> u64 {
        T::number_of(block) / 512
    }

    fn holding(alloc: A, block: u64, slot: Slot) -> Result<Self, AllocError> {
        let mut node = Node::new(alloc);
        let part = T::holding(alloc, block, slot)?;
        node.parts.push((T::number_of(block), part))?;
        Ok(node)
    }

    fn get(&self, block: u64) -> Option<Slot> {
        match place_of(self.parts.as_slice(), T::number_of(block)) {
            Ok(place) => self.parts[place].1.get(block),
            Err(_) => None,
        }
    }

    fn first_from(&self, at: u64) -> Option<(u64, Slot)> {
        let from = place_from(self.parts.as_slice(), T::number_of(at));
        for (_, part) in &self.parts[from..] {
            if let Some(found) = part.first_from(at) {
                return Some(found);
            }
        }
        None
    }

    fn list_within(
        &self,
        leaves: &[Places],
        first: Vpn,
        last: Vpn,
        list: &mut Vec<(Vpn, Entry), A>,
    ) -> Result<(), AllocError> {
        let from = place_from(self.parts.as_slice(), T::number_of(block_of(first)));
        let end = T::number_of(block_of(last));
        for (number, part) in &self.parts[from..] {
            if end < *number {
                return Ok(());
            }
            part.list_within(leaves, first, last, list)?;
        }
        Ok(())
    }

    fn set(&mut self, alloc: A, block: u64, slot: Slot) -> Result<(), AllocError> {
        let number = T::number_of(block);
        match place_of(self.parts.as_slice(), number) {
            Ok(place) => self.parts[place].1.set(alloc, block, slot),
            Err(place) => {
                let part = T::holding(alloc, block, slot)?;
                self.parts.insert(place, (number, part))?;
                Ok(())
            }
        }
    }

    fn replace(&mut self, block: u64, slot: Slot) {
        let Ok(place) = place_of(self.parts.as_slice(), T::number_of(block)) else {
            unreachable!()
        };
        self.parts[place].1.replace(block, slot);
    }

    fn remove(&mut self, block: u64) -> bool {
        let Ok(place) = place_of(self.parts.as_slice(), T::number_of(block)) else {
            unreachable!()
        };
        if !self.parts[place].1.remove(block) {
            return false;
        }
        self.parts.remove(place);
        self.parts.is_empty()
    }

    ghost ordered = { λ x w. node_ordered T.slots T.number T.whole T.is_in T.parted T.upwards x.parts.items w.0 };

    ghost filled = { λ x w. node_filled T.slots T.whole T.is_in T.filled x.parts.items w };

    ghost parted = { λ x i w n. node_part T.slots T.number T.whole T.is_in T.parted T.upwards x.parts.items i w.0 n };

    ghost takes_own = { λ x v n. tt };

    ghost upwards = { upwards_again T.number T.upwards };
}
