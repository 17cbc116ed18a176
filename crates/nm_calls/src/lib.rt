//! The calls of the modelled machine: the errors and answers of move_pages(2) and the calls around it.
#![tactic(auto)]

mod answer;
mod dispatch;
pub mod laws;
mod maps;
mod mbind;
mod migrate;
mod number_text;
mod offline;
mod status;
mod system;

pub use answer::{Answer, PagemapEntry};
pub use nm_engine::{AccessAnswer, FIXED_SEED, RunCrew, Totals};
pub use nm_passes::{CallError, Moved, run_count};
pub use nm_requests::{
    Attachment, Batch, Call, InFlight, MbindRequest, MigrateRequest, MoveRequest, NewArea,
    NewProcess, Question,
};
pub use nm_types::Access;
pub use number_text::{ADDRESS_BYTES, address_bytes};
pub use system::System;
