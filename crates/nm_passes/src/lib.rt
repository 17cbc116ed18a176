//! The pages that a call moves, listed, and the runs that move them: batches, turns and passes over nodes.
#![tactic(auto)]

mod batch;
mod binding;
mod call_error;
pub mod laws;
mod listing;
mod moved;
mod passes;
mod permission;
mod placement;
mod stray_pages;
mod turns;

pub use batch::{check_targets, move_batch, move_runs, run_count};
pub use binding::Binding;
pub use call_error::CallError;
pub use listing::{entries_of, migrate_list};
pub use moved::Moved;
pub use passes::make_passes;
pub use permission::{Permit, acted_on, names_missing_node, owner_of, permit_of, usable};
pub use placement::{Placement, make_moves, way_of};
pub use stray_pages::{astray, some_stray, stray_from};
