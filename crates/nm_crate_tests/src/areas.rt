ghost use Rattle.std.specs.Prelude.{◌<◌};

use nm_areas::{Areas, PageRange};
use nm_types::{FrameId, MachineError, Page, Pid, Policy, Vpn};
use std::alloc::{AllocError, Global};
use std::test::Fail;

/// Whether the areas of a process begin at these page numbers.
fn begin(areas: &Areas<Global>, pid: u32, numbers: &[u64]) -> Result<bool, AllocError> {
    let lines = areas.lines(Pid::new(pid))?;
    Ok(
        lines
            .iter()
            .map(|line| line.first.number())
            .eq(numbers.iter().copied()),
    )
}

/// Whether a process that unmaps its pages below a page number frees these frames.
fn gives(
    areas: &mut Areas<Global>,
    pid: u32,
    number: u64,
    frames: &[u16],
) -> Result<bool, AllocError>
    requires { 0 < number }
{
    let range = PageRange {
        first: Vpn::new(0),
        end: Vpn::new(number),
    };
    let freed = areas.remove(Pid::new(pid), range)?;
    Ok(
        freed
            .iter()
            .map(|(_, frame)| frame.number())
            .eq(frames.iter().copied()),
    )
}

/// Makes a shared segment of three pages, in frames 7, 6 and 5, and returns its number. Process 1 has all of them from
/// page number 16 on, and the last two again from 32 on. Process 2 has the second.
fn share_pages(areas: &mut Areas<Global>) -> Result<u32, MachineError> {
    let segment = areas.insert(Pid::new(1), 0x10000, 3, true)?;
    areas.attach(Pid::new(1), 0x20000, 0, 1, 2)?;
    areas.attach(Pid::new(2), 0x10000, 0, 1, 1)?;
    for index in 0..3u16 {
        let page = Page {
            segment: 0,
            index: u64::from(index),
        };
        areas.set_frame(page, FrameId::new(7 - index))?;
    }
    Ok(segment)
}

/// Whether a policy for the second page of process 1 makes three areas of its first, of which the last is left once the
/// first two pages are unmapped.
fn splits_and_unmaps(areas: &mut Areas<Global>) -> Result<bool, MachineError> {
    areas.split_policy(Pid::new(1), 0x11000, 4096, Policy::Local)?;
    let split = begin(areas, 1, [16, 17, 18, 32].as_slice())?;
    let freed = gives(areas, 1, 18, [7].as_slice())?;
    Ok(split && freed && begin(areas, 1, [18, 32].as_slice())?)
}

/// Whether each frame is freed with the last area over its page, and the segment with the last area of all.
fn gives_all(areas: &mut Areas<Global>) -> Result<bool, AllocError> {
    let first = gives(areas, 1, 64, [5].as_slice())? && areas.is_shared(0);
    let second = gives(areas, 2, 64, [6].as_slice())?;
    Ok(first && second && !areas.is_shared(0))
}

/// Whether areas over the pages of the first segment come, split and go.
fn come_and_go(areas: &mut Areas<Global>) -> Result<bool, MachineError> {
    let is_first = share_pages(areas)? == 0;
    Ok(is_first && splits_and_unmaps(areas)? && gives_all(areas)?)
}

/// A policy splits a page off its area. A frame goes with the last area over its page, and a segment with the last of
/// all.
#[test]
fn areas_come_and_go(rt: HostRuntime) -> Result<(), Fail> {
    let mut areas = Areas::new(rt.alloc());
    assert!(rt; come_and_go(&mut areas)?);
    Ok(())
}
