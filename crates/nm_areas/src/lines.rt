//! The areas of a process, as callers see them.

ghost use Rattle.std.specs.Prelude.{◌≡◌, ◌<◌, length, IfOk, OnErr};
ghost use Rattle.std.specs.List.{AllByRecursion};
ghost use Rattle.nm_model.specs.definitions.Areas.{is_shared};
ghost use Rattle.nm_areas.specs.Lines.{area_line, lines_of};
ghost use Rattle.nm_model.specs.definitions.Areas.{EndsLow, IsSomePages};

use crate::areas::Areas;
use crate::scan::step_area;
use nm_types::limits::PAGE_NUMBERS;
use nm_types::{Page, Pid, Policy, Segment, Vpn};
use std::alloc::{AllocError, Allocator};
use std::collections::BTreeMap;

/// An area of a process.
#[derive(Clone, Copy, Debug, PartialEq, Eq)]
pub struct Area {
    /// Its first page number: below 2^35.
    pub first: Vpn,
    /// Its length in pages: at least 1.
    pub pages: u64,
    /// How its new pages are placed.
    pub policy: Policy,
    /// The page at its first page number.
    pub page: Page,
    /// Whether its segment is shared.
    pub shared: bool,
}

impl<A: Allocator + Copy> Areas<A> {
    /// The areas of a process, in address order. Empty if it has none, or if there is no such process. An error means
    /// that the host is out of memory; an empty list needs none.
    pub fn lines(&self, pid: Pid) -> Result<Vec<Area, A>, AllocError>
        ensures lines { IfOk result
            (λ lines. lines.items ≡ lines_of self.now.segments self.now.areas pid) }
        ensures allocates { OnErr result (0 < length (lines_of self.now.segments self.now.areas pid)) }
    {
        list_lines(self.alloc, &self.table.segments, &self.table.areas, pid)
    }
}

/// The areas of a process, in address order.
fn list_lines<A: Allocator + Copy>(
    alloc: A,
    segments: &BTreeMap<u32, Segment, A>,
    areas: &BTreeMap<(Pid, Vpn), nm_types::Area, A>,
    pid: Pid,
) -> Result<Vec<Area, A>, AllocError>
    requires whole { AllByRecursion IsSomePages areas.now.entries }
    requires low { AllByRecursion EndsLow areas.now.entries }
    ensures lines { IfOk result
        (λ lines. lines.items ≡ lines_of segments.now.entries areas.now.entries pid) }
    ensures allocates { OnErr result (0 < length (lines_of segments.now.entries areas.now.entries pid)) }
{
    let mut lines = Vec::new(alloc);
    let mut rest = areas.range((pid, Vpn::new(0))..);
    while let Some((first, area)) = step_area(&mut rest, pid, Vpn::new(PAGE_NUMBERS)) {
        lines.push(line_of(segments, first, area))?;
    }
    Ok(lines)
}

/// An area that begins at a page number, with whether its segment is shared.
pub(crate) fn line_of<A: Allocator + Copy>(
    segments: &BTreeMap<u32, Segment, A>,
    first: Vpn,
    area: nm_types::Area,
) -> Area
    ensures { result ≡ area_line segments.now.entries ((0, first), area) }
{
    Area {
        first,
        pages: area.pages,
        policy: area.policy,
        page: area.page,
        shared: is_shared(segments, area.page.segment),
    }
}

/// Whether a segment is shared. False if there is no such segment.
pub(crate) fn is_shared<A: Allocator + Copy>(
    segments: &BTreeMap<u32, Segment, A>,
    number: u32,
) -> bool
    ensures { result ≡ is_shared segments.now.entries number }
{
    segments.get(&number).is_some_and(|segment| segment.shared)
}
