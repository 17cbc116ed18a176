//! Crews that make runs.

use nm_crew::{Crew, Looks};
use nm_frames::CopyJob;
use nm_spaces::AddressSpaces;
use std::alloc::Allocator;

/// A crew that makes the runs of a machine in memory of one allocator: it looks at address spaces, and copies frames.
pub trait RunCrew<A: Allocator + Copy>: Crew<Vec<CopyJob<A>, A>> + Looks<A, AddressSpaces<A>> {}

impl<A: Allocator + Copy, C: Crew<Vec<CopyJob<A>, A>> + Looks<A, AddressSpaces<A>>> RunCrew<A>
    for C {}
