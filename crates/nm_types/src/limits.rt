//! The limits of a machine. All are this project's own.

/// The bytes of a page, and of a frame.
pub const PAGE_BYTES: usize = 4096;

/// The most nodes that a machine may have.
pub const MAX_NODES: usize = 64;

/// The most frames that a machine may have, over all nodes.
pub const MAX_FRAMES: u64 = 16_384;

/// Page numbers inside areas are below this: addresses have 47 bits.
pub const PAGE_NUMBERS: u64 = 34_359_738_368;

/// The most processes alive at a time.
pub const MAX_PROCESSES: usize = 1024;

/// How many segments a machine makes in its life.
pub const MAX_SEGMENTS: u32 = 65_536;

/// The most pins that a page may have.
pub const MAX_PINS: u32 = 65_535;

/// The most requests in a batch of a trace, and the most in a run.
pub const MAX_BATCH: usize = 16_384;
