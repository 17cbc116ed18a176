//! Which nodes are tried, in which order: by distance, and by an area's policy.
#![tactic(auto)]

mod first_touch;
pub mod laws;
mod pairing;
mod targets;
mod zones;

pub use first_touch::{first_touch_node, first_touch_order, follows};
pub use pairing::{Pair, pairs};
pub use targets::{Destination, mbind_targets};
pub use zones::zonelist;
