//! The frames while the bytes of some are out.

ghost use Rattle.std.specs.Prelude.{◌≡◌, ℕ, ◌+◌, ◌<◌, ◌≤◌, ◌++◌, [], Some, length, min, slice_set, vec_len, vec_capacity};
ghost use Rattle.std.specs.List.{AllByRecursion};
ghost use Rattle.nm_types.specs.Layout.{frame_count};
ghost use Rattle.nm_pool.specs.views.Populated.{IsPopulated};
ghost use Rattle.nm_model.specs.definitions.Frames.{IsHome, bytes_of, overwrite};
ghost use Rattle.nm_model.specs.definitions.Memory.{stretch_of};
ghost use Rattle.nm_pool.specs.views.Copies.{CanCopy, HasBoth, without_moves, jobs_of, with_jobs_back, CanRefill};
ghost use Rattle.nm_pool.specs.views.Frames.{HasAllPlaces, in_memory};

use crate::frames::{FrameParts, FramePool, copy_bytes};
use nm_frames::{CopyJob, FrameStore};
use nm_types::{FrameId, PageMove};
use std::alloc::Allocator;
use std::marker::Model;

/// The frames of all nodes while the bytes of some are out, in the jobs of a run. Those of the others are home, and can
/// be read and overwritten. Contracts see as room how many frames the list of those that pages have left has room for.
#[derive(Drop)]
pub struct FramesInFlight<A: Allocator + Copy> {
    pub(super) parts: Box<FrameParts<A>, A>,
}

impl<A: Allocator + Copy> Model for FramesInFlight<A> {
    ghost use Rattle.std.specs.Prelude.{◌≡◌, vec_capacity};
    ghost use Rattle.nm_pool.specs.views.Frames.{FramesView, HasAllPlaces, in_memory};

    ghost Value = { FramesView };

    ghost view = { λ s. record {
      layout = s.parts.value.geometry;
      frames = in_memory s.parts.value.frames;
      free = s.parts.value.nodes.lists;
      vacated = s.parts.value.vacated.items;
      room = vec_capacity s.parts.value.vacated;
    } };

    ghost invariant = { λ s. (s.parts.value.nodes.sizes ≡ s.parts.value.geometry.sizes) × HasAllPlaces (record {
      layout = s.parts.value.geometry;
      frames = in_memory s.parts.value.frames;
      free = s.parts.value.nodes.lists;
      vacated = s.parts.value.vacated.items;
      room = vec_capacity s.parts.value.vacated;
    }) };
}

impl<A: Allocator + Copy> FramesInFlight<A> {
    /// Appends `len` bytes of a frame that is home, from index `at` on, to a list that has room for them.
    pub fn read(&self, frame: FrameId, at: usize, len: usize, bytes: &mut Vec<u8, A>)
        requires frame { IsHome self.now.frames frame }
        requires inside { at + len ≤ 4096 }
        requires room { vec_len bytes.old + len ≤ vec_capacity bytes.old }
        ensures { bytes.new.items
            ≡ bytes.old.items ++ stretch_of (bytes_of self.now.frames frame) at len }
    {
        let parts = &*self.parts;
        copy_bytes(&parts.frames, frame, at, len, bytes);
    }

    /// Overwrites the bytes of a frame that is home from index `at` on.
    pub fn write(&mut self, frame: FrameId, at: usize, bytes: &[u8])
        requires home { IsHome self.old.frames frame }
        requires populated { IsPopulated self.old.frames frame }
        requires inside { at + length bytes.now ≤ 4096 }
        ensures written { self.new
            ≡ record (self.old) {
              frames = slice_set self.old.frames frame
                  (Some (overwrite (bytes_of self.old.frames frame) at bytes.now));
            } }
        ensures places { HasAllPlaces self.old }
    {
        let parts = &mut *self.parts;
        parts.frames.write(frame, at, bytes);
    }

    /// Puts the bytes of the jobs back home, and with that ends the flight. Does not allocate: the list of the jobs, empty
    /// again, is where those of the next run go.
    pub fn put_back(self, mut copied: Vec<CopyJob<A>, A>) -> FramePool<A>
        requires can { CanRefill self.frames copied.items }
        requires home { (f : ℕ) → f < frame_count self.layout
            → IsHome (with_jobs_back self.frames copied.items) f }
        requires populated { AllByRecursion (IsPopulated (with_jobs_back self.frames copied.items))
            self.vacated }
        ensures frames { result
            ≡ record (self) {
              frames = with_jobs_back self.frames copied.items;
              room = result.room;
            } }
        ensures room { result.room ≡ min self.room (vec_capacity copied) }
    {
        let FramesInFlight { mut parts } = self;
        put_back_each(&mut parts.frames, &mut copied);
        FramePool {
            parts,
            jobs: copied,
        }
    }
}

/// Takes out the bytes of both frames of each move, as a job at the end of a list that has room for it.
pub(super) fn take_out_each<A: Allocator + Copy>(
    frames: &mut FrameStore<A>,
    moves: &[PageMove],
    jobs: &mut Vec<CopyJob<A>, A>,
)
    requires can { CanCopy (in_memory frames.old) moves.now }
    requires populated { AllByRecursion (HasBoth (in_memory frames.old)) moves.now }
    requires room { vec_len jobs.old + length moves.now ≤ vec_capacity jobs.old }
    ensures frames { in_memory frames.new ≡ without_moves (in_memory frames.old) moves.now }
    ensures jobs { jobs.new.items
        ≡ jobs.old.items ++ jobs_of (vec_len jobs.old) (in_memory frames.old) moves.now }
    ensures room { vec_capacity jobs.new ≡ vec_capacity jobs.old }
{
    for taken in moves {
        let ticket = jobs.len() as u64;
        let source = frames.take_out(taken.from);
        let target = frames.take_out(taken.to);
        jobs.push_reserved(CopyJob {
            source,
            target,
            ticket,
        });
    }
}

/// Puts the bytes of both frames of each job back home, and empties the list.
fn put_back_each<A: Allocator + Copy>(frames: &mut FrameStore<A>, jobs: &mut Vec<CopyJob<A>, A>)
    requires { CanRefill (in_memory frames.old) jobs.old.items }
    ensures frames { in_memory frames.new ≡ with_jobs_back (in_memory frames.old) jobs.old.items }
    ensures empty { jobs.new.items ≡ [] }
    ensures room { vec_capacity jobs.new ≡ vec_capacity jobs.old }
{
    while let Some(job) = jobs.pop() {
        let CopyJob { source, target, .. } = job;
        frames.put_back(source);
        frames.put_back(target);
    }
}
