//! The places of a leaf.

ghost use Rattle.std.specs.Prelude.{◌≡◌, ◌≤◌, ◌<◌, ◌+◌, ℕ, true, false, None, Some, IfSome, IfNone};
ghost use Rattle.nm_tables.specs.views.Leaves.{leaf_entry, stands_at};

use crate::Entry;
use crate::marks::Marks;
use nm_types::FrameId;

/// The entries of an aligned block of 512 page numbers. A place that names a frame has a page there, or if marked one
/// on its way to it. A place without a frame is absent, or if marked the page of zeros. That takes 1,160 bytes: 16 bits
/// for each frame and two marks.
#[derive(Drop)]
pub(crate) struct Places {
    pub(crate) block: u64,
    named: Marks,
    marked: Marks,
    frames: [u16; 512],
}

impl Places {
    /// Makes the places of a block, all absent.
    pub(crate) fn new(block: u64) -> Self
        ensures block { result.block ≡ block }
        ensures absent { (i : ℕ) → stands_at result i ≡ None }
    {
        Places {
            block,
            named: Marks::new(),
            marked: Marks::new(),
            frames: [0; 512],
        }
    }

    /// The entry at a place.
    pub(crate) fn get(&self, place: usize) -> Option<Entry>
        requires { place < 512 }
        ensures { result ≡ stands_at self.now place }
    {
        let marked = self.marked.has(place);
        if self.named.has(place) {
            let frame = FrameId::new(self.frames[place]);
            if marked {
                Some(Entry::Held(frame))
            } else {
                Some(Entry::Frame(frame))
            }
        } else if marked {
            Some(Entry::Zero)
        } else {
            None
        }
    }

    /// Sets the entry at a place.
    pub(crate) fn put(&mut self, place: usize, entry: Entry)
        requires { place < 512 }

        // At this place
        ensures here { stands_at self.new place ≡ Some entry }

        // Elsewhere
        ensures others { (i : ℕ) → (i ≡ place → ⊥) → stands_at self.new i ≡ stands_at self.old i }
        ensures block { self.new.block ≡ self.old.block }
    {
        match entry {
            Entry::Zero => self.write(place, false, true, 0),
            Entry::Frame(frame) => self.write(place, true, false, frame.number()),
            Entry::Held(frame) => self.write(place, true, true, frame.number()),
        }
    }

    /// Makes a place absent.
    pub(crate) fn clear(&mut self, place: usize)
        requires { place < 512 }

        // At this place
        ensures here { stands_at self.new place ≡ None }

        // Elsewhere
        ensures others { (i : ℕ) → (i ≡ place → ⊥) → stands_at self.new i ≡ stands_at self.old i }
        ensures block { self.new.block ≡ self.old.block }
    {
        self.write(place, false, false, 0);
    }

    /// Sets the parts of the entry at a place.
    fn write(&mut self, place: usize, named: bool, marked: bool, frame: u16)
        requires { place < 512 }

        // At this place
        ensures here { stands_at self.new place ≡ leaf_entry named marked frame }

        // Elsewhere
        ensures others { (i : ℕ) → (i ≡ place → ⊥) → stands_at self.new i ≡ stands_at self.old i }
        ensures block { self.new.block ≡ self.old.block }
    {
        self.named.put(place, named);
        self.marked.put(place, marked);
        self.frames[place] = frame;
    }

    /// The first entry at or after a place, with its place.
    pub(crate) fn first_from(&self, from: usize) -> Option<(usize, Entry)>
        requires { from ≤ 512 }

        // If there is one
        ensures some { IfSome result
            (λ e. (from ≤ e.0) × (e.0 < 512) × (stands_at self.now e.0 ≡ Some e.1)) }
        ensures first { IfSome result
            (λ e. (i : ℕ) → from ≤ i → i < e.0 → stands_at self.now i ≡ None) }

        // If there is none
        ensures none { IfNone result ((i : ℕ) → from ≤ i → i < 512 → stands_at self.now i ≡ None) }
    {
        let mut place = from;
        while place < 512 {
            let absent = self.count_absent(place);
            if absent > 0 {
                place += absent;
            } else {
                if let Some(entry) = self.get(place) {
                    return Some((place, entry));
                }
                place += 1;
            }
        }
        None
    }

    /// Whether no place except this one has an entry.
    pub(crate) fn has_no_other(&self, place: usize) -> bool
        requires { place < 512 }
        ensures none { result ≡ true →
            (i : ℕ) →
            i < 512 →
            (i ≡ place → ⊥) →
            stands_at self.now i ≡ None }
        ensures some { result ≡ false →
            ((i : ℕ) → i < 512 → (i ≡ place → ⊥) → stands_at self.now i ≡ None) →
            ⊥ }
    {
        if let Some((first, _)) = self.first_from(0) {
            if first < place {
                return false;
            }
        }
        self.first_from(place + 1).is_none()
    }

    /// How many places from this one on are absent, counted to the end of its word of marks.
    fn count_absent(&self, place: usize) -> usize
        requires { place < 512 }
        ensures absent { (i : ℕ) → place ≤ i → i < place + result → stands_at self.now i ≡ None }
        ensures fits { place + result ≤ 512 }
    {
        let left = 64 - place % 64;
        let word = self.named.rest_of_word(place) | self.marked.rest_of_word(place);
        if word == 0 {
            return left;
        }
        left.min(word.trailing_zeros() as usize)
    }
}
