//! Marks at the places of a leaf.

ghost use Rattle.std.specs.Prelude.{◌≡◌, ◌<◌, ◌+◌, ◌%◌, ◌==◌, ℕ, false, if◌then◌else◌};
ghost use Rattle.std.specs.Int.{bit_at};
ghost use Rattle.nm_tables.specs.views.Marks.{is_marked};

/// Which of a leaf's 512 places are marked: one bit each.
#[derive(Drop)]
pub(crate) struct Marks {
    words: [u64; 8],
}

impl Marks {
    /// Makes marks with no place marked.
    pub(crate) fn new() -> Self
        ensures { (i : ℕ) → is_marked result.words i ≡ false }
    {
        Marks { words: [0; 8] }
    }

    /// Whether a place is marked.
    pub(crate) fn has(&self, place: usize) -> bool
        requires { place < 512 }
        ensures { result ≡ is_marked self.now.words place }
    {
        (self.words[place / 64] >> (place % 64)) & 1 == 1
    }

    /// The marks from a place to the end of its word; the place's own is the lowest bit.
    pub(crate) fn rest_of_word(&self, place: usize) -> u64
        requires { place < 512 }
        ensures { (j : ℕ) →
            place % 64 + j < 64 →
            is_marked self.now.words (place + j) ≡ (bit_at result j == 1) }
    {
        self.words[place / 64] >> (place % 64)
    }

    /// Sets the mark of a place, or clears it.
    pub(crate) fn put(&mut self, place: usize, marked: bool)
        requires { place < 512 }
        ensures { (i : ℕ) →
            is_marked self.new.words i ≡ (if i == place then marked else is_marked self.old.words i) }
    {
        let bit = 1u64 << (place % 64);
        if marked {
            self.words[place / 64] |= bit;
        } else {
            self.words[place / 64] &= !bit;
        }
    }
}
