//! The calls of a system as values: what a program that embeds the model hands to `System::call`, and what a trace is a list of.
//! Nothing here reads JSON.
#![tactic(auto)]

mod call;

pub use call::{
    Attachment, Batch, Call, InFlight, MbindRequest, MigrateRequest, MoveRequest, NewArea,
    NewProcess, Question,
};
