//! The calls of a system, as values.

ghost use Rattle.std.specs.Prelude.{◌≡◌, length};

use nm_types::{Access, NodeId, NodeMask, Pid};
use std::alloc::Allocator;

/// A new process.
#[derive(Clone, Copy, Debug, PartialEq, Eq)]
pub struct NewProcess {
    /// Its number: 1 to 2^32 - 1, and not that of a process that is alive.
    pub pid: Pid,
    /// Its user's number.
    pub uid: u32,
    /// Its home node, near which its memory is placed by default: a number below the machine's number of nodes.
    pub home: NodeId,
    /// The nodes that it may use: at least one, all of the machine.
    pub allowed: NodeMask,
    /// Whether it may act on other users' processes, as with CAP_SYS_NICE.
    pub privileged: bool,
}

/// An area over a new segment.
#[derive(Clone, Copy, Debug, PartialEq, Eq)]
pub struct NewArea {
    /// The number of the process whose area it is.
    pub pid: Pid,
    /// The address at which it begins, in bytes: a multiple of 4,096.
    pub addr: u64,
    /// The length of the area and of its segment in pages: at least 1, and ending at 2^47 at the latest.
    pub pages: u64,
    /// Whether other processes may attach the segment.
    pub shared: bool,
}

/// An area over a range of a shared segment.
#[derive(Clone, Copy, Debug, PartialEq, Eq)]
pub struct Attachment {
    /// The number of the process whose area it is.
    pub pid: Pid,
    /// The address at which it begins, in bytes: a multiple of 4,096.
    pub addr: u64,
    /// The segment's number: below 65,536.
    pub segment: u64,
    /// The index, in pages from 0, of the segment's page that the area shows first.
    pub offset: u64,
    /// The length of the area in pages: at least 1, ending at 2^47 at the latest and within the segment.
    pub pages: u64,
}

/// Pages, each named by an address in it, and for each the node that it is to move to: two lists of equal length.
#[derive(Debug, Drop)]
pub struct Batch<A: Allocator + Copy + Send + Sync> {
    /// An address in each page, in bytes.
    pub pages: Vec<u64, A>,
    /// The number of each page's target node. Numbers that are not of the machine are refused.
    pub nodes: Vec<u32, A>,
    pub ghost paired: { length pages.items ≡ length nodes.items },
}

/// A read or a write made while the pages of a run move.
#[derive(Debug, Drop)]
pub struct InFlight<A: Allocator + Copy + Send + Sync> {
    /// The number of the run in its call, from 0. It must be below `run_count`: an access of a run that the call does
    /// not make has no answer, and the answers after it move up.
    pub run: usize,
    /// What is read or written.
    pub access: Access<A>,
}

/// Pages to move, as in move_pages(2).
#[derive(Debug, Drop)]
pub struct MoveRequest<A: Allocator + Copy + Send + Sync> {
    /// The number of the calling process.
    pub caller: Pid,
    /// The number of the process whose addresses are named. 0 means the caller.
    pub pid: Pid,
    /// The pages and their targets.
    pub batch: Batch<A>,
    /// The flags by their bits: MPOL_MF_MOVE is 2, MPOL_MF_MOVE_ALL is 4.
    pub flags: u32,
    /// The accesses during its runs: those of one run are made one after another, in the order of this list.
    pub during: Vec<InFlight<A>, A>,
}

/// Nodes that pages of a process are to leave, and nodes that they are to go to, as in migrate_pages(2).
#[derive(Clone, Copy, Debug, PartialEq, Eq)]
pub struct MigrateRequest {
    /// The number of the calling process.
    pub caller: Pid,
    /// The number of the process whose pages they are. 0 means the caller.
    pub pid: Pid,
    /// The nodes that the pages leave, all of the machine.
    pub old: NodeMask,
    /// The nodes that the pages go to, all of the machine.
    pub new: NodeMask,
}

/// A range of a process's bytes, and the policy that it is to get, as in mbind(2).
#[derive(Clone, Copy, Debug, PartialEq, Eq)]
pub struct MbindRequest {
    /// The number of the calling process, whose range it is.
    pub caller: Pid,
    /// The address at which the range begins, in bytes: a multiple of 4,096.
    pub addr: u64,
    /// Its length in bytes, rounded up to whole pages. 0 changes nothing.
    pub len: u64,
    /// The mode's number: MPOL_DEFAULT 0, MPOL_PREFERRED 1, MPOL_BIND 2, MPOL_INTERLEAVE 3, MPOL_LOCAL 4.
    pub mode: u32,
    /// The nodes of the policy, all of the machine: none for MPOL_DEFAULT and MPOL_LOCAL, at least one for MPOL_BIND
    /// and MPOL_INTERLEAVE.
    pub nodes: NodeMask,
    /// The flags by their bits: MPOL_MF_STRICT is 1, MPOL_MF_MOVE 2, MPOL_MF_MOVE_ALL 4.
    pub flags: u32,
}

/// Pages to look at, as in move_pages(2) without nodes.
#[derive(Debug, Drop)]
pub struct Question<A: Allocator + Copy + Send + Sync> {
    /// The number of the calling process.
    pub caller: Pid,
    /// The number of the process whose addresses are named. 0 means the caller.
    pub pid: Pid,
    /// An address in each page, in bytes.
    pub pages: Vec<u64, A>,
    /// The flags by their bits, as in `MoveRequest`.
    pub flags: u32,
}

/// A call of a system with its arguments.
#[derive(Debug, Drop)]
pub enum Call<A: Allocator + Copy + Send + Sync> {
    /// Makes a process.
    Spawn(NewProcess),
    /// Makes an area over a new segment.
    Map(NewArea),
    /// Makes an area over a stretch of a shared segment.
    Attach(Attachment),
    /// Unmaps pages from an address on.
    Unmap {
        /// The process.
        pid: Pid,
        /// The address of the first page, in bytes: a multiple of 4,096.
        addr: u64,
        /// How many pages: at least 1, ending at 2^47 at the latest.
        pages: u64,
    },
    /// Ends a process.
    Exit {
        /// The process.
        pid: Pid,
    },
    /// Adds a pin to the page at an address.
    Pin {
        /// The process.
        pid: Pid,
        /// An address in the page, in bytes.
        addr: u64,
    },
    /// Removes a pin from the page at an address.
    Unpin {
        /// The process.
        pid: Pid,
        /// An address in the page, in bytes.
        addr: u64,
    },
    /// Reads bytes at an address.
    Read {
        /// The process.
        pid: Pid,
        /// The address of the first byte.
        addr: u64,
        /// How many bytes: 1 to 4,096, inside one page.
        len: u64,
    },
    /// Writes bytes at an address.
    Write {
        /// The process.
        pid: Pid,
        /// The address of the first byte.
        addr: u64,
        /// The bytes to write: 1 to 4,096, inside one page.
        bytes: Vec<u8, A>,
    },
    /// Moves pages, as move_pages(2) does.
    MovePages(MoveRequest<A>),
    /// Moves a process's pages from nodes to nodes, as migrate_pages(2) does.
    MigratePages(MigrateRequest),
    /// Sets the policy of a range, as mbind(2) does.
    Mbind(MbindRequest),
    /// Moves all pages off a node, and takes it offline.
    Offline {
        /// The node's number: below the machine's number of nodes.
        node: NodeId,
    },
    /// Brings a node online.
    Online {
        /// The node's number: below the machine's number of nodes.
        node: NodeId,
    },
    /// Asks where pages are, as move_pages(2) without nodes does.
    Query(Question<A>),
    /// Asks for the free frames of a node.
    FreeList {
        /// The node's number: below the machine's number of nodes.
        node: NodeId,
    },
    /// Asks for a process's entries.
    Pagemap {
        /// The process.
        pid: Pid,
    },
    /// Asks how many pages have moved and how many requests have failed.
    Vmstat,
    /// Asks for a process's areas as text.
    NumaMaps {
        /// The process.
        pid: Pid,
    },
}
