//! What a machine has counted, and its free frames.

ghost use Rattle.std.specs.Prelude.{Err, IfOk, length, true, ◌<◌, ◌≡◌};
ghost use Rattle.nm_engine.specs.definitions.Does.{AsksLast, Returns};
ghost use Rattle.nm_model.specs.definitions.Sound.{IsSound, each_frame_is_once};
ghost use Rattle.nm_model.specs.definitions.Effect.{list_refusal};
ghost use Rattle.nm_types.specs.State.{free_list};
ghost use Rattle.nm_model.specs.definitions.Touch.{has_free};

use crate::machine::{Machine, Totals};
use nm_types::{Errno, FrameId, MachineError, NodeId};
use std::alloc::{AllocError, Allocator};

impl<A: Allocator + Copy + Send + Sync> Machine<A> {
    /// How many pages have moved and how many requests have failed, as in `/proc/vmstat`. Between two calls a machine
    /// is sound.
    pub fn totals(&self) -> Totals
        ensures moved { result.moved ≡ self.now.moved }
        ensures failed { result.failed ≡ self.now.failed }
        ensures sound { IsSound self.now }
    {
        self.totals
    }

    /// Whether a node has a free frame. False if there is no such node. Does not allocate.
    pub fn has_free(&self, node: NodeId) -> bool
        ensures { result ≡ has_free self.now.free node }
    {
        self.frames.has_free(node)
    }

    /// The free frames of a node, front first. EINVAL if there is no such node. An empty list takes no memory.
    pub fn free_list(&self, node: NodeId) -> Result<Vec<FrameId, A>, MachineError>
        ensures value { Returns result (list_refusal self.now node)
            (λ frames. frames.items ≡ free_list self.now node) }
        ensures memory { AsksLast result (list_refusal self.now node) }
        ensures allocates { result ≡ Err MachineError.HostMemory → 0 < length (free_list self.now node) }
    {
        if node.index() >= self.frames.geometry().node_count() {
            return Err(MachineError::Refused(Errno::Einval));
        }
        Ok(self.frames.free_list(self.alloc, node)?)
    }

    /// Whether each frame of the machine is in exactly one place: once in its own node's free list, or the frame of one
    /// page. True, since a machine is sound. An error means that the host is out of memory.
    pub fn audit(&self) -> Result<bool, AllocError>
        ensures frames { IfOk result (λ b. b ≡ each_frame_is_once self.now) }
        ensures sound { IfOk result (λ b. b ≡ true) }
    {
        let places = self.spaces.areas().frames()?;
        let once = self.frames.audit(self.alloc, places.as_slice())?;
        Ok(once)
    }
}
