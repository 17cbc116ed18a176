//! A law of the program's words. The function does nothing, and its contract is the law.

ghost use Rattle.nm_words.specs.Words.{WordRows};

/// Worked words: how many workers they ask for, or why they are refused.
pub fn word_rows()
    ensures { WordRows }
{}
