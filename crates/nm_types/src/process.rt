//! What `spawn` fixes of a process.

use crate::{NodeId, NodeMask};

/// What `spawn` fixes of a process.
#[derive(Clone, Copy, Debug, PartialEq, Eq)]
pub struct ProcessInfo {
    /// Its user's number.
    pub uid: u32,
    /// Whether it may act on other users' processes, as with CAP_SYS_NICE.
    pub privileged: bool,
    /// The number of the node that its new pages are placed near: below the number of nodes.
    pub home: NodeId,
    /// The nodes that it may use, as its cpuset would say. Not empty.
    pub allowed: NodeMask,
}
