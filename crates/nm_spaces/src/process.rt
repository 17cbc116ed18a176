//! Processes and their page tables.

use nm_tables::PageTable;
use nm_types::ProcessInfo;
use std::alloc::Allocator;
use std::marker::Model;

/// A process with its page table.
#[derive(Drop)]
pub(crate) struct Task<A: Allocator + Copy> {
    pub(crate) info: ProcessInfo,
    pub(crate) table: PageTable<A>,
}

impl<A: Allocator + Copy> Model for Task<A> {
    ghost use Rattle.nm_model.specs.definitions.PageTables.{Task};

    ghost Value = { Task };

    ghost view = { λ t. record { info = t.info; table = t.table } };
}
