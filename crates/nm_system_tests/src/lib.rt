//! Tests across crates, tests of what no trace can express, and tests in which each allocation is refused in turn.
#![tactic(auto)]

#[cfg(test)]
mod again;
#[cfg(test)]
mod answers;
#[cfg(test)]
mod attempts;
#[cfg(test)]
mod crews;
#[cfg(test)]
mod gates;
#[cfg(test)]
mod texts;
#[cfg(test)]
mod traces;
#[cfg(test)]
mod trails;
