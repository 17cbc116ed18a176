ghost use Rattle.std.specs.Prelude.{◌≡◌, [], ◌∷◌, IfOk};
ghost use Rattle.nm_model.specs.definitions.Frames.{new_pool};

use crate::machine::three_nodes;
use nm_nodes::NodePool;
use nm_refusing_alloc::Refusing;
use nm_types::{FrameId, NodeId};
use std::alloc::Global;
use std::test::Fail;

/// The free frames of a new machine.
fn free_frames(heap: &Refusing<Global>) -> Result<NodePool<&Refusing<Global>>, Fail>
    ensures { IfOk result (λ pool. pool ≡ new_pool (4 ∷ 4 ∷ 1 ∷ [])) }
{
    let geometry = three_nodes(heap)?;
    Ok(NodePool::new(heap, &geometry)?)
}

/// Each node's list has the frames that follow those of the node before.
#[test]
fn all_frames_are_free(rt: HostRuntime) -> Result<(), Fail> {
    let heap = Refusing::new(rt.alloc());
    let pool = free_frames(&heap)?;
    let node = NodeId::new(1);
    let found = [pool.nth(node, 0), pool.nth(node, 3), pool.nth(node, 4)];
    assert!(rt; found == [Some(FrameId::new(4)), Some(FrameId::new(7)), None]);
    Ok(())
}
