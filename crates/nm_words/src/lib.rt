//! Reads the words of the command line.
#![tactic(auto)]

pub mod laws;
mod words;

pub use words::read_words;
