//! Pins.

ghost use Rattle.std.specs.Prelude.{Bool, IfErr, IfOk, Some, false, if◌then◌else◌, true, ℕ, ◌/◌, ◌≡◌, ◌≤◌};
ghost use Rattle.nm_model.specs.definitions.Effect.{is_unknown, pin, pin_refusal, pins_refusal, shows_pinned, unpin, unpin_refusal};
ghost use Rattle.nm_types.specs.declared.errno.Errno.{Errno};
ghost use Rattle.nm_types.specs.declared.errno.Errno.TheVariants.{Esrch};
ghost use Rattle.nm_types.specs.Map.{get, page_cmp};
ghost use Rattle.nm_engine.specs.definitions.Does.{Alters};
ghost use Rattle.nm_model.specs.definitions.Seen.{page_seen, sight_at};
ghost use Rattle.nm_types.specs.declared.sight.Sight.TheVariants.{Sees};

use crate::machine::Machine;
use nm_types::{Errno, FrameId, Page, PageView, Pid, Seen, Vpn};
use std::alloc::Allocator;

impl<A: Allocator + Copy + Send + Sync> Machine<A> {
    /// Adds a pin to the page that a process sees at an address: it does not move while it has one.
    ///
    /// Errors, in order: ESRCH if there is no such process; EFAULT if there is no area, or only the page of zeros;
    /// ENOENT if nothing was touched there; EBUSY if the page has 65,535 pins. Does not allocate.
    pub fn pin(&mut self, pid: Pid, addr: u64) -> Result<(), Errno>
        ensures { Alters result self.old self.new (pin_refusal self.old pid addr)
            (pin self.old pid addr) }
    {
        let (page, frame) = self.page_seen(pid, addr)?;
        self.last_pin = Some((pid, Vpn::of_address(addr)));
        self.spaces.pin(page, frame)
    }

    /// Removes a pin from the page that a process sees at an address, whoever added it.
    ///
    /// Errors, in order: ESRCH, EFAULT and ENOENT as for `pin`; EINVAL if the page has no pin. Does not allocate.
    pub fn unpin(&mut self, pid: Pid, addr: u64) -> Result<(), Errno>
        ensures { Alters result self.old self.new (unpin_refusal self.old pid addr)
            (unpin self.old pid addr) }
    {
        let (page, frame) = self.page_seen(pid, addr)?;
        self.spaces.unpin(page, frame)
    }

    /// The page with a frame that a process sees at an address, and its frame; or the refusal that `pin` and `unpin`
    /// have in common.
    fn page_seen(&self, pid: Pid, addr: u64) -> Result<(Page, FrameId), Errno>
        // On success
        ensures known { IfOk result (λ r. is_unknown self.now pid ≡ false) }
        ensures seen { IfOk result
            (λ r. sight_at self.now pid (addr / 4096) ≡ Some (Sees r.0)) }
        ensures placed { IfOk result (λ r. get page_cmp self.now.place r.0 ≡ Some r.1) }

        // On refusal
        ensures err { IfErr result
            (λ e. (is_bad : ℕ → Bool) (bad : Errno) →
            (if is_unknown self.now pid then Some Esrch else pins_refusal self.now is_bad bad
            (page_seen self.now pid (addr / 4096)))
            ≡ Some e) }
    {
        if self.spaces.info(pid).is_none() {
            return Err(Errno::Esrch);
        }
        match self.spaces.seen(pid, Vpn::of_address(addr)) {
            Seen::NoArea | Seen::Zero => Err(Errno::Efault),
            Seen::Absent => Err(Errno::Enoent),
            Seen::At { page, frame, .. } => Ok((page, frame)),
        }
    }

    /// Whether an area of a process shows a page with a pin from one page number up to another. Looks first where a page
    /// was pinned last: what is refused again and again for that pin walks over nothing.
    pub(crate) fn shows_pinned(&self, pid: Pid, first: Vpn, end: Vpn) -> bool
        requires { first ≤ end }
        ensures { result ≡ shows_pinned self.now.areas self.now.pins pid first end }
    {
        self.last_pin_is_in(pid, first, end) || self.spaces.has_pinned(pid, first, end)
    }

    /// Whether the page that was pinned last still has a pin, and is shown there in this range of the process.
    fn last_pin_is_in(&self, pid: Pid, first: Vpn, end: Vpn) -> bool
        ensures { result ≡ true →
            shows_pinned self.now.areas self.now.pins pid first end ≡ true }
    {
        match self.last_pin {
            Some((owner, vpn)) => {
                owner == pid
                    && vpn.number() >= first.number()
                    && vpn.number() < end.number()
                    && self.spaces.has_pin_at(pid, vpn)
            }
            None => false,
        }
    }
}
