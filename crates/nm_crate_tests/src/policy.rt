ghost use Rattle.std.specs.Prelude.{◌<◌};

use crate::machine::three_nodes;
use nm_policy::{Destination, Pair, first_touch_order, mbind_targets, pairs, zonelist};
use nm_refusing_alloc::Refusing;
use nm_types::{FrameId, Geometry, LocatedPage, NodeId, NodeMask, Page, Policy, Vpn};
use std::alloc::{AllocError, Global};
use std::test::Fail;

/// The set of two nodes.
fn set_of(first: u32, second: u32) -> NodeMask
    requires { (first < 64) × (second < 64) }
{
    let mut set = NodeMask::new();
    set.insert(NodeId::new(first));
    set.insert(NodeId::new(second));
    set
}

/// Whether nodes are in the order of their distances, and a first touch tries only the policy's nodes, in that order.
fn stand_by_distance<'h>(
    heap: &'h Refusing<Global>,
    geometry: &Geometry<&'h Refusing<Global>>,
) -> Result<bool, AllocError> {
    let home = NodeId::new(0);
    let one = NodeId::new(1);
    let two = NodeId::new(2);
    let mut all = set_of(0, 1);
    all.insert(two);
    let policy = Policy::Bind(set_of(1, 2));
    let zones = zonelist(heap, geometry, all, home)?;
    let order = first_touch_order(heap, geometry, all, home, all, policy, 0)?;
    Ok(zones.as_slice() == [home, two, one].as_slice() && order.as_slice() == [two, one].as_slice())
}

#[test]
fn nodes_by_distance(rt: HostRuntime) -> Result<(), Fail> {
    let heap = Refusing::new(rt.alloc());
    let geometry = three_nodes(&heap)?;
    assert!(rt; stand_by_distance(&heap, &geometry)?);
    Ok(())
}

/// A page that a node takes.
fn takes(number: u64, to: NodeId) -> Destination {
    Destination {
        vpn: Vpn::new(number),
        to,
    }
}

/// A page at the page number that is its index.
fn page_at(index: u64) -> LocatedPage {
    LocatedPage {
        vpn: Vpn::new(index),
        page: Page { segment: 0, index },
        frame: FrameId::new(0),
        node: NodeId::new(0),
    }
}

/// A node whose pages go to a node that is still to be emptied waits for that one. The pages that two nodes take by
/// turns are listed by node.
#[test]
fn targets_in_order(rt: HostRuntime) -> Result<(), Fail> {
    let zero = NodeId::new(0);
    let one = NodeId::new(1);
    let two = NodeId::new(2);
    let paired = pairs(rt.alloc(), set_of(0, 1), set_of(1, 2))?;
    let want = [
        Pair { from: one, to: two },
        Pair {
            from: zero,
            to: one,
        },
    ];
    assert!(rt; paired.as_slice() == want.as_slice());
    let pages = [page_at(16), page_at(17), page_at(18)];
    let dealt = mbind_targets(rt.alloc(), set_of(0, 2), pages.as_slice())?;
    let want = [takes(16, zero), takes(18, zero), takes(17, two)];
    assert!(rt; dealt.as_slice() == want.as_slice());
    Ok(())
}
