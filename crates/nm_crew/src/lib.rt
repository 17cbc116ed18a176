//! Crews: those who look at what a run asks for, and copy its pages while the caller makes accesses. A crew may be the
//! caller alone or have threads; nothing here starts a thread, or waits for one.
#![tactic(auto)]

mod alone;
mod crew;
mod jobs;
mod looks;

pub use alone::Alone;
pub use crew::{Crew, FIXED_SEED};
pub use jobs::Jobs;
pub use looks::Looks;
