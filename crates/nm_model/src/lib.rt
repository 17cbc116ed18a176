//! Linux page migration as definitions: what a machine is, and what a touch, a run and a batch do to it. There is no
//! code here: `specs/definitions` is meant to be read, and nm_laws proves what holds of it.
#![tactic(auto)]
