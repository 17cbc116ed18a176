//! Traces: which bytes are which calls, and which fault they have where they are none.
#![tactic(auto)]

mod json_value;
mod keys;
pub mod laws;
mod owned;
mod parsing;
mod reading;
mod step_error;
mod trace;
mod trace_error;
mod tree;
mod whole;

pub use json_value::{JsonList, JsonValue};
pub use parsing::step_of;
pub use reading::{geometry_of, read_trace, run_limit_of, value_of};
pub use step_error::StepError;
pub use trace::Trace;
pub use trace_error::TraceError;
pub use tree::Tree;
