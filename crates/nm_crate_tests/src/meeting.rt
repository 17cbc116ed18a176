//! A gate and a view that hold whoever comes until others have come.

ghost use Rattle.std.specs.Prelude.{◌≡◌, IfOk};

use nm_refusing_alloc::Refusing;
use nm_runs::{Run, Wanted};
use nm_threads::Gate;
use nm_types::{FrameId, NodeId, Page, PageView, Pid, Seen, Vpn};
use std::alloc::{AllocError, Global};
use std::sync::atomic::{AtomicBool, AtomicU64, Ordering};
use std::thread::{Builder, yield_now};

/// The number of no worker.
pub(crate) const NONE: usize = 64;

/// A page number far from the others.
const FAR: u64 = 1 << 30;

/// Holds whoever comes until all that are expected have come, for at most 2^24 turns. As a gate it holds workers. As a
/// view, without areas, it holds whoever looks at page number 0, who is the first, or at the one far from it, who is
/// the second.
#[derive(Drop)]
pub(crate) struct Meeting {
    /// Who came, and who is expected: one bit each.
    came: AtomicU64,
    all: u64,
    missed: AtomicBool,
    /// The worker whose thread the host refuses, or all threads if that is worker 0.
    refused: usize,
}

impl Meeting {
    /// Expects these, one bit each. The host refuses the thread of worker `refused`.
    pub(crate) fn of(all: u64, refused: usize) -> Meeting {
        Meeting {
            came: AtomicU64::new(0),
            all,
            missed: AtomicBool::new(false),
            refused,
        }
    }

    /// Notes that this one came, and holds it.
    fn hold(&self, bit: u64) {
        self.came.fetch_or(bit, Ordering::SeqCst);
        for _ in 0..1u64 << 24 {
            if self.came.load(Ordering::SeqCst) & self.all == self.all {
                return;
            }
            yield_now();
        }
        self.missed.store(true, Ordering::SeqCst);
    }

    /// Who came, one bit each, or nobody if one of them waited in vain.
    pub(crate) fn came(&self) -> u64 {
        if self.missed.load(Ordering::SeqCst) {
            0
        } else {
            self.came.load(Ordering::SeqCst)
        }
    }
}

impl Gate for Meeting {
    fn pass(&self, worker: usize, _ticket: u64) {
        if worker < 64 {
            self.hold(1 << worker);
        }
    }

    fn builder(&self, worker: usize) -> Builder {
        if self.refused == worker || self.refused == 0 {
            Builder::new().stack_size(usize::MAX)
        } else {
            Builder::new()
        }
    }
}

impl PageView for Meeting {
    ghost use Rattle.std.specs.Prelude.{None};
    ghost use Rattle.nm_types.specs.declared.seen.Seen.TheVariants.{NoArea};

    ghost seen_at = { λ meeting pid v. NoArea };

    ghost placed_at = { λ meeting p. None };

    fn seen(&self, _pid: Pid, vpn: Vpn) -> Seen {
        match vpn.number() {
            0 => self.hold(1),
            FAR => self.hold(2),
            _ => {}
        }
        Seen::NoArea
    }

    fn placed(&self, _page: Page) -> Option<(FrameId, bool)> {
        None
    }
}

/// A request for a page number of process 1.
pub(crate) fn wanted_at(number: u64, all: bool) -> Wanted {
    Wanted::At {
        pid: Pid::new(1),
        vpn: Vpn::new(number),
        all,
    }
}

/// A run of requests for this many page numbers from 0 on, and for the one far from them.
pub(crate) fn far_run(
    heap: &Refusing<Global>,
    count: u64,
) -> Result<Run<&Refusing<Global>>, AllocError>
    ensures { IfOk result (λ run. run.target ≡ 0) }
{
    let mut wanted = Vec::new(heap);
    for number in 0..count {
        wanted.push(wanted_at(number, false))?;
    }
    wanted.push(wanted_at(FAR, false))?;
    Ok(Run {
        target: NodeId::new(0),
        wanted,
    })
}
