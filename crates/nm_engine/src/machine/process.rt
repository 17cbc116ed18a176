//! Adding and removing processes.

ghost use Rattle.std.specs.Prelude.{Err, length, true, ◌<◌, ◌^◌, ◌≡◌};
ghost use Rattle.nm_model.specs.definitions.AreaRefusal.{overlaps};
ghost use Rattle.std.specs.List.{list_any};
ghost use Rattle.nm_engine.specs.definitions.Does.{AsksLast, Makes};
ghost use Rattle.nm_model.specs.definitions.Effect.{exit, exit_refusal, spawn, spawn_refusal};

use crate::machine::Machine;
use nm_areas::PageRange;
use nm_types::limits::{MAX_PROCESSES, PAGE_NUMBERS};
use nm_types::{Errno, MachineError, NodeId, NodeMask, Pid, ProcessInfo, Vpn};
use std::alloc::Allocator;

impl<A: Allocator + Copy + Send + Sync> Machine<A> {
    /// Adds a process, with the credentials and the cpuset of credentials(7), capabilities(7) and cpuset(7). The home
    /// node need be neither allowed nor online.
    ///
    /// Errors, in order: EINVAL if the pid is 0 or alive, the home is not a node of the machine, or the allowed set is
    /// empty or has a node that the machine does not have; ENOMEM if 1,024 processes are alive.
    pub fn spawn(
        &mut self,
        pid: Pid,
        uid: u32,
        home: NodeId,
        allowed: NodeMask,
        privileged: bool,
    ) -> Result<(), MachineError>
        ensures done { Makes result self.old self.new (spawn_refusal self.old pid home allowed)
            (spawn self.old pid uid home allowed privileged) }
        ensures memory { AsksLast result (spawn_refusal self.old pid home allowed) }
    {
        let count = self.frames.geometry().node_count();
        if pid.number() == 0
            || self.spaces.info(pid).is_some()
            || home.index() >= count
            || allowed.is_empty()
            || allowed.has_beyond(count)
        {
            return Err(MachineError::Refused(Errno::Einval));
        }
        if self.spaces.len() >= MAX_PROCESSES {
            return Err(MachineError::Refused(Errno::Enomem));
        }
        let info = ProcessInfo {
            uid,
            privileged,
            home,
            allowed,
        };
        self.spaces.add(pid, info)?;
        Ok(())
    }

    /// Ends a process: it loses all that it has, as by one `unmap`, and its pid may be used again.
    ///
    /// Errors, in order: ESRCH if there is no such process; EBUSY if one of its areas shows a page with a pin. Allocates
    /// only if the process has an area, and a page has a frame.
    pub fn exit(&mut self, pid: Pid) -> Result<(), MachineError>
        ensures done { Makes result self.old self.new (exit_refusal self.old pid)
            (exit self.old pid) }
        ensures memory { AsksLast result (exit_refusal self.old pid) }
        ensures allocates { result ≡ Err MachineError.HostMemory →
            list_any (overlaps pid 0 (2 ^ 35)) self.old.areas ≡ true }
        ensures needed { result ≡ Err MachineError.HostMemory → 0 < length self.old.place }
    {
        if self.spaces.info(pid).is_none() {
            return Err(MachineError::Refused(Errno::Esrch));
        }
        let first = Vpn::new(0);
        let end = Vpn::new(PAGE_NUMBERS);
        if self.shows_pinned(pid, first, end) {
            return Err(MachineError::Refused(Errno::Ebusy));
        }
        self.let_go(pid, PageRange { first, end })?;
        self.spaces.remove_task(pid);
        Ok(())
    }
}
