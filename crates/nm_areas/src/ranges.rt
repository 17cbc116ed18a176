//! Ranges of page numbers.

ghost use Rattle.std.specs.Prelude.{IfNone, IfSome, false, true, ◌%◌, ◌*◌, ◌+◌, ◌/◌, ◌<◌, ◌^◌, ◌≡◌, ◌≤◌};
ghost use Rattle.nm_model.specs.definitions.Areas.{page_count};
ghost use Rattle.nm_model.specs.definitions.AreaRefusal.{is_range};

use nm_types::Vpn;
use nm_types::limits::{PAGE_BYTES, PAGE_NUMBERS};

/// Page numbers from `first` up to, not including, `end`.
#[derive(Clone, Copy)]
pub struct PageRange {
    /// The first page number.
    pub first: Vpn,
    /// The page number after the last.
    pub end: Vpn,
}

impl PageRange {
    /// The page numbers of `pages` pages from an address on. None if the address is not a multiple of 4,096, `pages` is
    /// 0, or the pages end past 2^47: then a call refuses them with EINVAL.
    pub fn of_pages(addr: u64, pages: u64) -> Option<PageRange>
        ensures some { IfSome result
            (λ r. (r.first ≡ addr / 4096) × (r.end ≡ addr / 4096 + pages) × (is_range addr pages ≡ true)
            × (r.first < r.end) × (r.end ≤ 2 ^ 35)) }
        ensures none { IfNone result (is_range addr pages ≡ false) }
    {
        let first = Vpn::of_address(addr);
        let end = first.number().checked_add(pages)?;
        if Vpn::offset(addr) == 0 && pages > 0 && end <= PAGE_NUMBERS {
            Some(PageRange {
                first,
                end: Vpn::new(end),
            })
        } else {
            None
        }
    }

    /// The page numbers of the whole pages of `len` bytes from an address on. None if the address is not a multiple of
    /// 4,096 or the pages end at 2^64 or past it.
    pub(crate) fn of_bytes(addr: u64, len: u64) -> Option<PageRange>
        ensures some { IfSome result
            (λ r. (r.first ≡ addr / 4096) × (r.end ≡ addr / 4096 + page_count len) × (addr % 4096 ≡ 0)
            × (addr + 4096 * page_count len < 2 ^ 64)) }
        ensures none { IfNone result (addr % 4096 ≡ 0 → 2 ^ 64 ≤ addr + 4096 * page_count len) }
    {
        let bytes = PAGE_BYTES as u64;
        let count = len.div_ceil(bytes);
        if Vpn::offset(addr) == 0 && count <= (u64::MAX - addr) / bytes {
            let first = Vpn::of_address(addr);
            Some(PageRange {
                first,
                end: Vpn::new(first.number() + count),
            })
        } else {
            None
        }
    }
}
