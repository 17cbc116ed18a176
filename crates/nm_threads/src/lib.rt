//! Crews with threads: the caller and threads of a runtime look at pieces of a run, and copy its pages. To copy, each
//! draws the next job from a board, so a faster worker copies more, and every job comes back copied, in order, however
//! many workers there are. Threads are started, and waited for, here and nowhere below.
#![tactic(auto)]

mod classes;
mod copying;
mod gate;
mod hired;
mod room;
mod worker;

pub use classes::classify;
pub use copying::copy_while;
pub use gate::{Gate, OpenGate};
pub use hired::Hired;
