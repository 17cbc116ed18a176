//! Tests of single crates, from nm_types up to nm_threads. Here one program has them all, and no crate is proved once more for its own.
#![tactic(auto)]

#[cfg(test)]
mod areas;
#[cfg(test)]
mod board;
#[cfg(test)]
mod frames;
#[cfg(test)]
mod laws;
#[cfg(test)]
mod machine;
#[cfg(test)]
mod meeting;
#[cfg(test)]
mod nodes;
#[cfg(test)]
mod plan;
#[cfg(test)]
mod policy;
#[cfg(test)]
mod refusing;
#[cfg(test)]
mod rmap;
#[cfg(test)]
mod runs;
#[cfg(test)]
mod tables;
#[cfg(test)]
mod threads;
#[cfg(test)]
mod types;
#[cfg(test)]
mod work;
