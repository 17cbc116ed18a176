//! Worked examples of the definitions alone. Each function does nothing, and its contract is the law.

ghost use Rattle.nm_tables.specs.examples.Entries.{EntriesStandUpwards, ClearedEntryIsGone};

/// Two pages set one after another have their last entries, in ascending order; a page that is cleared is gone.
pub fn entries_come_and_go()
    ensures both { EntriesStandUpwards }
    ensures cleared { ClearedEntryIsGone }
{}
