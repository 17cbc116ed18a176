//! Steps at pages, each with how many areas cover its page: over a long stretch all these numbers grow or fall at once.
#![tactic(auto)]

mod coverage;
mod parts;
mod step;

pub use coverage::Coverage;
pub use step::Step;
