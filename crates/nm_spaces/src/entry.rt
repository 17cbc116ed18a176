//! What entries of page tables name.

ghost use Rattle.std.specs.Prelude.{◌≡◌};
ghost use Rattle.nm_spaces.specs.views.ProcessTable.{frame_named};

use nm_tables::Entry;
use nm_types::FrameId;

/// The frame that an entry names: for a page on its way to another frame, the one that it takes. None for the page of
/// zeros.
pub fn frame_named(entry: &Entry) -> Option<FrameId>
    ensures { result ≡ frame_named entry.now }
{
    match entry {
        Entry::Zero => None,
        Entry::Frame(frame) => Some(*frame),
        Entry::Held(frame) => Some(*frame),
    }
}
