//! What a process sees where it has touched memory.

use crate::page::Page;

/// What a process sees at a page number that it has touched.
#[derive(Clone, Copy, Debug, PartialEq, Eq)]
pub enum Sight {
    /// The page of zeros, which a read of private memory shows until the first write.
    ZeroPage,
    /// A page.
    Sees(Page),
}
