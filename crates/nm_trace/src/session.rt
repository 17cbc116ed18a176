//! Playing traces as their steps arrive.

ghost use Rattle.std.specs.Prelude.{◌≡◌, ◌<◌, ◌≤◌, true, option_map, codes};
ghost use Rattle.nm_trace.specs.definitions.Session.{session_of, IsCall, Steps};
ghost use Rattle.nm_steps.specs.Tree.{view};
ghost use Rattle.nm_steps.specs.Form as form;
ghost use Rattle.nm_steps.specs.Faults.{Gives};
ghost use Rattle.nm_steps.specs.Memory.{IsSomeText, takes_memory};
ghost use Rattle.nm_steps.specs.declared.trace_error.TraceError.TheVariants.{HostMemory};

mod calls;

use crate::playing::make_step;
use json::Scratch;
use nm_calls::{Call, FIXED_SEED, RunCrew, System};
use nm_steps::{StepError, TraceError, Tree, geometry_of, run_limit_of, step_of, value_of};
use nm_streams::{Block, ClosedWriter};
use std::alloc::{Allocator, Global};
use std::marker::Model;

/// A system that plays a trace step by step, as the bytes of each step arrive. Contracts see the system, and how many
/// steps were made.
#[derive(Drop)]
pub struct Session<A: Allocator + Copy + Send + Sync> {
    system: System<A>,
    run_limit: usize,
    steps: usize,
    alloc: A,
}

impl<A: Allocator + Copy + Send + Sync> Model for Session<A> {
    ghost use Rattle.std.specs.Prelude.{◌≡◌, ◌<◌};
    ghost use Rattle.nm_trace.specs.definitions.Session.{SessionState};

    ghost Value = { SessionState };

    ghost view = { λ s. record { system = s.system; steps = s.steps } };

    ghost invariant = { λ s. (0 < s.run_limit) × (s.system.run_limit ≡ s.run_limit) };
}

/// The call of a value as the step with this number, or its fault.
fn call_of<A: Allocator + Copy + Send + Sync>(
    alloc: A,
    value: &Tree<'_>,
    limit: usize,
    step: usize,
) -> Result<Call<A>, TraceError>
    requires { 0 < limit }
    ensures call { IsCall step result (form.step_of limit (view value.now)) }
    ensures allocates { result ≡ Err (HostMemory step) →
        option_map (λ op. takes_memory op (view value.now))
        (form.text_at (codes "op") (view value.now))
        ≡ Some true }
{
    match step_of(alloc, value, limit) {
        Ok(call) => Ok(call),
        Err(StepError::Bad) => Err(TraceError::BadStep(step)),
        Err(StepError::Memory) => Err(TraceError::HostMemory(step)),
    }
}

impl<A: Allocator + Copy + Send + Sync> Session<A> {
    /// Begins a session with the machine and the limit on runs at the top of a trace. Reads the
    /// top as `read_trace` does, except that `steps` is not looked at, and may be missing. Faults, in order: `NotJson`,
    /// `BadMachine`; `HostMemory(0)` if the host is out of memory: never for bytes that are not UTF-8.
    pub fn open(alloc: A, heap: Global, bytes: &[u8]) -> Result<Self, TraceError>
        ensures session { Gives (λ s. s) result (session_of bytes.now) }
        ensures allocates { result ≡ Err (HostMemory 0) → IsSomeText bytes.now }
    {
        Session::open_with_hash_seed(alloc, heap, bytes, FIXED_SEED)
    }

    /// Begins a session as `open` does, on a system with this seed (`System::with_hash_seed`). No lines depend on it.
    #[tactic(auto, unfolding(crate::specs::definitions::Session::session_of, crate::specs::definitions::Session::new_session))]
    pub fn open_with_hash_seed(
        alloc: A,
        heap: Global,
        bytes: &[u8],
        seed: u64,
    ) -> Result<Self, TraceError>
        ensures session { Gives (λ s. s) result (session_of bytes.now) }
        ensures allocates { result ≡ Err (HostMemory 0) → IsSomeText bytes.now }
    {
        let mut scratch = Scratch::new(heap);
        let value = value_of(heap, bytes, &mut scratch)?;
        let geometry = geometry_of(alloc, &value)?;
        let run_limit = run_limit_of(&value)?;
        let Ok(system) = System::with_hash_seed(alloc, geometry, run_limit, seed) else {
            return Err(TraceError::HostMemory(0));
        };
        Ok(Session {
            system,
            run_limit,
            steps: 0,
            alloc,
        })
    }

    /// Makes the next step, given as JSON, and returns its lines, numbered by the steps before it. A refused call is a
    /// step with its line. `NotJson`, or `BadStep` with the step's number, if the bytes are no step: nothing has
    /// changed. `HostMemory` with the step's number if the host is out of memory: the step is not counted, but its call
    /// may have been made in part, as the call says, or whole and without its lines.
    #[tactic(auto, unfolding(crate::specs::definitions::Session::next_call))]
    pub fn step<C: RunCrew<A>>(
        &mut self,
        crew: &C,
        heap: Global,
        bytes: &[u8],
    ) -> Result<Vec<u8, A>, TraceError>
        ensures steps { Steps (λ lines. lines.items) self.old self.new bytes.now result }
        ensures allocates { result ≡ Err (HostMemory self.old.steps) → IsSomeText bytes.now }
    {
        let step = self.steps;
        let mut scratch = Scratch::new(heap);
        let value = match value_of(heap, bytes, &mut scratch) {
            Ok(value) => value,
            Err(TraceError::NotJson) => return Err(TraceError::NotJson),
            Err(TraceError::HostMemory(_)) => return Err(TraceError::HostMemory(step)),
            Err(
                TraceError::BadMachine
                | TraceError::BadStep(_)
                | TraceError::ReadFault
                | TraceError::WriteFault,
            ) => unreachable!(),
        };
        let call = call_of(self.alloc, &value, self.run_limit, step)?;
        if step == usize::MAX {
            return Err(TraceError::HostMemory(step));
        }
        let mut block = Block::new(self.alloc, usize::MAX);
        let mut closed = ClosedWriter::new();
        let Ok(()) = make_step(crew, &mut self.system, step, &call, &mut block, &mut closed) else {
            return Err(TraceError::HostMemory(step));
        };
        if block.is_broken() {
            return Err(TraceError::HostMemory(step));
        }
        self.steps = step + 1;
        Ok(block.into_waiting())
    }
}
