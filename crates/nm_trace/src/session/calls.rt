//! Calls on the system of a session, beside its steps: they have no lines, and are not counted.

ghost use Rattle.std.specs.Prelude.{◌≡◌, ℕ, Bool};
ghost use Rattle.nm_requests.specs.Calls.{ReadBytes, WriteBytes};
ghost use Rattle.nm_requests.specs.Views.{call_of, map_call, migrate_call, move_call};
ghost use Rattle.nm_calls.specs.definitions.Answers.{Done, NewSegment, TheBytes, Failed};
ghost use Rattle.nm_calls.specs.definitions.Does.{Does};
ghost use Rattle.nm_calls.specs.views.Answers.{answer_of, moved_shown};

use super::Session;
use nm_calls::{
    Answer, Call, CallError, MigrateRequest, MoveRequest, Moved, NewArea, RunCrew, System,
};
use nm_types::Pid;
use std::alloc::Allocator;

#[tactic(auto, using(crate::proofs::Beside::does_limit))]
impl<A: Allocator + Copy + Send + Sync> Session<A> {
    /// The system, as steps and calls have left it.
    pub fn system(&self) -> &System<A>
        ensures { result.now ≡ self.now.system }
    {
        &self.system
    }

    /// Makes a call that is given as a value, as `System::call` does.
    pub fn call<C: RunCrew<A>>(&mut self, crew: &C, call: &Call<A>) -> Result<Answer<A>, CallError>
        ensures done { Does answer_of result self.old.system self.new.system (call_of call.now) }
        ensures steps { self.new.steps ≡ self.old.steps }
    {
        self.system.call(crew, call)
    }

    /// Makes an area, as `System::map` does.
    pub fn map(&mut self, area: &NewArea) -> Result<u32, CallError>
        ensures done { Does NewSegment result self.old.system self.new.system (map_call area.now) }
        ensures steps { self.new.steps ≡ self.old.steps }
    {
        self.system.map(area)
    }

    /// Reads bytes, as `System::read` does.
    pub fn read(&mut self, pid: Pid, addr: u64, len: u64) -> Result<Vec<u8, A>, CallError>
        ensures done { Does (λ bytes. TheBytes bytes.items) result self.old.system self.new.system
            (ReadBytes pid addr len) }
        ensures steps { self.new.steps ≡ self.old.steps }
    {
        self.system.read(pid, addr, len)
    }

    /// Writes bytes, as `System::write` does.
    pub fn write(&mut self, pid: Pid, addr: u64, bytes: &[u8]) -> Result<(), CallError>
        ensures done { Does (λ done. Done) result self.old.system self.new.system
            (WriteBytes pid addr bytes.now) }
        ensures steps { self.new.steps ≡ self.old.steps }
    {
        self.system.write(pid, addr, bytes)
    }

    /// Moves the pages of a batch, as `System::move_pages` does.
    pub fn move_pages<C: RunCrew<A>>(
        &mut self,
        crew: &C,
        request: &MoveRequest<A>,
    ) -> Result<Moved<A>, CallError>
        ensures done { Does moved_shown result self.old.system self.new.system
            (move_call request.now) }
        ensures steps { self.new.steps ≡ self.old.steps }
    {
        self.system.move_pages(crew, request)
    }

    /// Moves pages from nodes to nodes, as `System::migrate_pages` does.
    pub fn migrate_pages<C: RunCrew<A>>(
        &mut self,
        crew: &C,
        request: &MigrateRequest,
    ) -> Result<usize, CallError>
        ensures done { Does Failed result self.old.system self.new.system
            (migrate_call request.now) }
        ensures steps { self.new.steps ≡ self.old.steps }
    {
        self.system.migrate_pages(crew, request)
    }
}
