//! A board that hands out copy jobs by ticket: each job is drawn by one hand, in whatever order threads draw, and all
//! jobs come back in order.
#![tactic(auto)]

mod board;
mod hand;
pub mod laws;
mod report;
mod rule;
mod slots;
mod steps;
mod view;

pub use board::{Board, Short};
pub use hand::Hand;
