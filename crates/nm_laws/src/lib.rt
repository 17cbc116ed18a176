//! What holds of nm_model's definitions, whatever any code does: laws of every state, run and request, and worked
//! examples.
#![tactic(auto)]

pub mod examples;
pub mod laws;
