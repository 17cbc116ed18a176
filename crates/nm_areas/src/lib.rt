//! The areas of all processes, the segments that they show, and the frames of pages.
#![tactic(auto)]

mod area_table;
mod areas;
mod counting;
mod coverage;
mod lines;
mod places;
mod policy;
mod ranges;
mod scan;
mod split;
mod unmap;

pub use areas::Areas;
pub use lines::Area;
pub use ranges::PageRange;
