//! Where an access finds its bytes.

ghost use Rattle.std.specs.Prelude.{◌≡◌, ◌+◌, ◌/◌, ◌%◌, ◌≤◌, Ok, Err, IfOk, IfErr};
ghost use Rattle.nm_types.specs.State.{Process, PlacedArea};
ghost use Rattle.nm_engine.specs.views.Parts.{IsSiteOf, SiteIs, access_site};

use nm_spaces::AddressSpaces;
use nm_types::limits::PAGE_BYTES;
use nm_types::{Errno, Page, Pid, Policy, ProcessInfo, Vpn};
use std::alloc::Allocator;

/// Where an access finds its bytes: a process, one of its page numbers, and the page that the area over it shows there,
/// with the area's policy.
#[derive(Clone, Copy)]
pub(crate) struct ResolvedAddress {
    pub(crate) pid: Pid,
    pub(crate) info: ProcessInfo,
    pub(crate) vpn: Vpn,
    pub(crate) page: Page,
    pub(crate) policy: Policy,
}

impl ResolvedAddress {
    /// Where `len` bytes of a process from `addr` on are, or the first refusal.
    pub(crate) fn of<A: Allocator + Copy>(
        spaces: &AddressSpaces<A>,
        pid: Pid,
        addr: u64,
        len: u64,
    ) -> Result<Self, Errno>
        // On success
        ensures ok { IfOk result
            (λ t. (p : Process) × (a : PlacedArea) × IsSiteOf spaces.now.processes spaces.now.areas t p a
            × SiteIs spaces.now pid addr len (Ok (access_site t p a))) }
        ensures pid { IfOk result (λ t. t.pid ≡ pid) }
        ensures page { IfOk result (λ t. t.vpn ≡ addr / 4096) }
        ensures inside { IfOk result (λ t. addr % 4096 + len ≤ 4096) }

        // On refusal
        ensures err { IfErr result (λ errno. SiteIs spaces.now pid addr len (Err errno)) }
    {
        let Some(info) = spaces.info(pid) else {
            return Err(Errno::Esrch);
        };
        if len == 0 || len > (PAGE_BYTES - Vpn::offset(addr)) as u64 {
            return Err(Errno::Einval);
        }
        let vpn = Vpn::of_address(addr);
        let Some((first, area)) = spaces.areas().over(pid, vpn) else {
            return Err(Errno::Efault);
        };
        let Page { segment, index } = area.page;
        let page = Page {
            segment,
            index: index + (vpn.number() - first.number()),
        };
        Ok(ResolvedAddress {
            pid,
            info,
            vpn,
            page,
            policy: area.policy,
        })
    }
}
