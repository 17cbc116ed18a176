//! Entries as C has them.

ghost use Rattle.std.specs.Prelude.{◌≡◌};
ghost use Rattle.nm_library.specs.Entries.{pagemap_entry};

use nm_calls::PagemapEntry;

/// An entry of a process.
#[derive(Clone, Copy)]
#[repr(C)]
pub struct Entry {
    /// The page number: below 2^35.
    pub page: u64,
    /// The number of the frame, below 16,384, or -1 for the page of zeros.
    pub frame: i64,
}

impl Entry {
    /// The entry of a process's list.
    pub fn of(entry: &PagemapEntry) -> Entry
        ensures { result ≡ pagemap_entry entry.now }
    {
        Entry {
            page: entry.vpn.number(),
            frame: match entry.frame {
                Some(frame) => i64::from(frame.number()),
                None => -1,
            },
        }
    }
}
