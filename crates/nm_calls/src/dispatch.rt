//! Making calls that are given as values.

ghost use Rattle.std.specs.Prelude.{◌<◌};
ghost use Rattle.nm_requests.specs.Calls as calls;
ghost use Rattle.nm_calls.specs.definitions.Does.{AllocatesOnlyIf, Does};
ghost use Rattle.nm_calls.specs.definitions.Memory.{MayAllocate};
ghost use Rattle.nm_requests.specs.Views.{attach_call, call_of, mbind_call, query_call, spawn_call};
ghost use Rattle.nm_calls.specs.views.Answers.{answer_of, moved_shown};

use crate::answer::Answer;
use crate::system::System;
use nm_engine::RunCrew;
use nm_passes::{CallError, Moved};
use nm_requests::{Attachment, Call, MbindRequest, NewProcess, Question};
use nm_types::NodeId;
use std::alloc::Allocator;

/// Makes a process.
fn spawn<A: Allocator + Copy + Send + Sync>(
    system: &mut System<A>,
    process: &NewProcess,
) -> Result<Answer<A>, CallError>
    ensures { Does answer_of result system.old system.new (spawn_call process.now) }
{
    system.spawn(process)?;
    Ok(Answer::Done)
}

/// Makes an area over a range of a shared segment.
fn attach<A: Allocator + Copy + Send + Sync>(
    system: &mut System<A>,
    area: &Attachment,
) -> Result<Answer<A>, CallError>
    ensures { Does answer_of result system.old system.new (attach_call area.now) }
{
    system.attach(area)?;
    Ok(Answer::Done)
}

/// Sets the policy of a range.
fn mbind<A: Allocator + Copy + Send + Sync, C: RunCrew<A>>(
    crew: &C,
    system: &mut System<A>,
    request: &MbindRequest,
) -> Result<Answer<A>, CallError>
    ensures done { Does answer_of result system.old system.new (mbind_call request.now) }
    ensures allocates { AllocatesOnlyIf result (MayAllocate system.old.state (mbind_call request.now)) }
{
    system.mbind(crew, request)?;
    Ok(Answer::Failed(0))
}

/// Takes a node offline.
fn offline<A: Allocator + Copy + Send + Sync, C: RunCrew<A>>(
    crew: &C,
    system: &mut System<A>,
    node: NodeId,
) -> Result<Answer<A>, CallError>
    ensures done { Does answer_of result system.old system.new (calls.Offline node) }
    ensures allocates { AllocatesOnlyIf result (MayAllocate system.old.state (calls.Offline node)) }
{
    system.offline(crew, node)?;
    Ok(Answer::Done)
}

/// Brings a node online.
fn online<A: Allocator + Copy + Send + Sync>(
    system: &mut System<A>,
    node: NodeId,
) -> Result<Answer<A>, CallError>
    ensures done { Does answer_of result system.old system.new (calls.Online node) }
    ensures allocates { AllocatesOnlyIf result (MayAllocate system.old.state (calls.Online node)) }
{
    system.online(node)?;
    Ok(Answer::Done)
}

/// Reports where pages are.
fn query<A: Allocator + Copy + Send + Sync>(
    system: &System<A>,
    question: &Question<A>,
) -> Result<Moved<A>, CallError>
    ensures done { Does moved_shown result system.now system.now (query_call question.now) }
    ensures allocates { AllocatesOnlyIf result (MayAllocate system.now.state (query_call question.now)) }
{
    Ok(Moved {
        failed: 0,
        statuses: system.query(question)?,
        answers: Vec::new(system.allocator()),
    })
}

impl<A: Allocator + Copy + Send + Sync> System<A> {
    /// Makes a call that is given as a value. It returns the same errors as the method of the same name, and leaves the
    /// same state if the host is out of memory. In a call that moves pages, the crew looks at them and copies them.
    /// Allocates only where `MayAllocate` holds: for example, where there is something to unmap, move, set or list.
    pub fn call<C: RunCrew<A>>(&mut self, crew: &C, call: &Call<A>) -> Result<Answer<A>, CallError>
        ensures done { Does answer_of result self.old self.new (call_of call.now) }
        ensures allocates { AllocatesOnlyIf result (MayAllocate self.old.state (call_of call.now)) }
    {
        match call {
            Call::Spawn(process) => spawn(self, process),
            Call::Map(area) => Ok(Answer::Segment(self.map(area)?)),
            Call::Attach(area) => attach(self, area),
            Call::Unmap { pid, addr, pages } => {
                self.unmap(*pid, *addr, *pages)?;
                Ok(Answer::Done)
            }
            Call::Exit { pid } => {
                self.exit(*pid)?;
                Ok(Answer::Done)
            }
            Call::Pin { pid, addr } => {
                self.pin(*pid, *addr)?;
                Ok(Answer::Done)
            }
            Call::Unpin { pid, addr } => {
                self.unpin(*pid, *addr)?;
                Ok(Answer::Done)
            }
            Call::Read { pid, addr, len } => Ok(Answer::Bytes(self.read(*pid, *addr, *len)?)),
            Call::Write { pid, addr, bytes } => {
                self.write(*pid, *addr, bytes.as_slice())?;
                Ok(Answer::Done)
            }
            Call::MovePages(request) => Ok(Answer::Statuses(self.move_pages(crew, request)?)),
            Call::MigratePages(request) => Ok(Answer::Failed(self.migrate_pages(crew, request)?)),
            Call::Mbind(request) => mbind(crew, self, request),
            Call::Offline { node } => offline(crew, self, *node),
            Call::Online { node } => online(self, *node),
            Call::Query(question) => Ok(Answer::Statuses(query(self, question)?)),
            Call::FreeList { node } => Ok(Answer::Frames(self.free_list(*node)?)),
            Call::Pagemap { pid } => Ok(Answer::Entries(self.pagemap(*pid)?)),
            Call::Vmstat => Ok(Answer::Totals(self.vmstat())),
            Call::NumaMaps { pid } => Ok(Answer::Lines(self.numa_maps(*pid)?)),
        }
    }
}
