use nm_plan::{PageMove, plan};
use nm_runs::Class;
use nm_types::{FrameId, NodeId, Page};
use std::test::Fail;

/// A request for a page of the first segment, in this frame.
fn leaves(index: u64, from: u16) -> Class {
    Class::Move {
        page: Page { segment: 0, index },
        from: FrameId::new(from),
    }
}

/// A page of the first segment that moves from one frame to another.
fn goes(index: u64, from: u16, to: u16) -> PageMove {
    PageMove {
        page: Page { segment: 0, index },
        from: FrameId::new(from),
        to: FrameId::new(to),
    }
}

/// Two free frames for three pages, one of them named twice before and one twice after the frames are used up.
#[test]
fn pages_take_frames_in_order(rt: HostRuntime) -> Result<(), Fail> {
    let classes = [
        leaves(0, 0),
        Class::Status(-13),
        leaves(1, 1),
        leaves(0, 0),
        leaves(2, 2),
        Class::Status(1),
        leaves(2, 2),
    ];
    let front = [FrameId::new(6), FrameId::new(7)];
    let plan = plan(
        rt.alloc(),
        classes.as_slice(),
        front.as_slice(),
        NodeId::new(1),
    )?;
    assert!(rt; plan.statuses() == [1i32, -13, 1, 1, -12, 1, -12].as_slice());
    assert!(rt; plan.moves() == [goes(0, 0, 6), goes(1, 1, 7)].as_slice());
    assert!(rt; plan.shortage() == Some(4));
    Ok(())
}
