//! A look at one page number of a process.

use crate::numbers::{FrameId, Pid, Vpn};
use crate::page::Page;

/// What a process sees at a page number.
#[derive(Clone, Copy, Debug, PartialEq, Eq)]
pub enum Seen {
    /// No area of the process is there.
    NoArea,
    /// The process has not touched the page number yet.
    Absent,
    /// The page of zeros, which a read of private memory shows.
    Zero,
    /// A page that has a frame.
    At {
        /// The page.
        page: Page,
        /// The number of the page's frame: below 16,384.
        frame: FrameId,
        /// How many processes see the page: at most 1,024. Two addresses of one process count once.
        processes: usize,
        /// Whether the page has a pin.
        pinned: bool,
    },
}

/// What requests need to know of pages, by page number and by page. A look changes nothing and does not allocate.
pub trait PageView {
    ghost use Rattle.std.specs.Prelude.{◌≡◌, ℕ, Bool, Option};
    ghost use Rattle.nm_types.specs.declared.page.Page.{Page};
    ghost use Rattle.nm_types.specs.declared.seen.Seen.{Seen};

    /// What each process sees at each page number.
    ghost seen_at: { Self → ℕ → ℕ → Seen };

    /// The frame of each page that has one, and whether the page has a pin.
    ghost placed_at: { Self → Page → Option (ℕ × Bool) };

    /// What a process sees at a page number.
    fn seen(&self, pid: Pid, vpn: Vpn) -> Seen
        ensures { result ≡ seen_at self.now pid vpn };

    /// The frame of a page, and whether the page has a pin. None if it has no frame.
    fn placed(&self, page: Page) -> Option<(FrameId, bool)>
        ensures { result ≡ placed_at self.now page };
}
