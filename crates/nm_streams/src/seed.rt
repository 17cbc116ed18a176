//! A number that the host draws.

use std::io;
use std::random::RandomSource;

/// Draws a number that whoever writes the input cannot know. Fails where the host has no random bytes.
pub fn draw_seed<R: RandomSource>(rt: &R) -> io::Result<u64> {
    let mut bytes = [0; 8];
    rt.fill_bytes(&mut bytes)?;
    Ok(u64::from_le_bytes(bytes))
}
