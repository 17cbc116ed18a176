//! Reads a trace from standard input, plays it on a modelled machine, and writes the report to standard output.
#![tactic(auto)]

mod input;
#[cfg(test)]
mod tests;
mod words;

use input::Input;
use nm_trace::{FIXED_SEED, WatchedStream, draw_seed};
use std::io::ErrorKind;
use std::process::ExitCode;
pub use words::run_words;

fn main(rt: HostRuntime) -> ExitCode {
    let alloc = rt.alloc();
    let words = match std::env::args(&rt) {
        Ok(words) => words
            .collect::<Vec<String>>(alloc)
            .map_err(|_| ErrorKind::OutOfMemory),
        Err(error) => Err(error.kind()),
    };
    // (a host that draws no seed is one whose standard input fails)
    let (seed, input) = match draw_seed(&rt) {
        Ok(seed) => (seed, Some(rt.stdin())),
        Err(_) => (FIXED_SEED, None),
    };
    let status = match words {
        Ok(words) => run_words(
            &rt,
            seed,
            alloc,
            words.as_slice(),
            &mut WatchedStream::new(Input::new(input)),
            &mut WatchedStream::new(rt.stdout()),
            &mut WatchedStream::new(rt.stderr()),
        ),
        Err(kind) => words::unread_words(kind, &mut rt.stderr()),
    };
    ExitCode::from(status)
}
