//! The range of a policy.

use nm_types::{Pid, Policy, Vpn};

/// A range of a process's page numbers, and the policy that it gets.
#[derive(Clone, Copy)]
pub struct Binding {
    /// The process's number.
    pub pid: Pid,
    /// The first page number.
    pub first: Vpn,
    /// The page number after the last.
    pub end: Vpn,
    /// The policy.
    pub policy: Policy,
}
