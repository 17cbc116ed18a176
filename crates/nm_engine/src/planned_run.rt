//! Runs that are planned, made on a machine.

ghost use Rattle.std.specs.Prelude.{◌≡◌, ◌<◌, ◌≤◌, ◌+◌, [], length, vec_capacity, IfOk, OnErr};
ghost use denote.Param.Send.{Frees, IsSend, IsSync};
ghost use Rattle.nm_types.specs.Layout.{node_count};
ghost use Rattle.nm_laws.specs.Moves.{IsPlanOf};
ghost use Rattle.std.specs.declared.vec.Vec.{Vec};
ghost use Rattle.nm_frames.specs.declared.job.CopyJob.{CopyJob as Job};
ghost use Rattle.nm_model.specs.definitions.Run.{failures, HasOneAll};
ghost use Rattle.nm_engine.specs.definitions.Orders.{GoesByEvents, result_of_run};
ghost use Rattle.nm_pool.specs.declared.answers.AccessAnswer.{AccessAnswer as Given};
ghost use Rattle.nm_engine.specs.views.Flights.{Flight};
ghost use Rattle.nm_engine.specs.views.Runs.{asked_by, ran_by};

use crate::answers::RunAnswer;
use crate::machine::Machine;
use crate::prepared_run::PreparedRun;
use crate::run_crew::RunCrew;
use nm_plan::Plan;
use nm_pool::AccessAnswer;
use nm_runs::Run;
use nm_types::Access;
use std::alloc::{AllocError, Allocator};

/// A run with its plan, the accesses that come while its pages are on their way, and an empty list with room for their
/// answers.
pub(crate) struct PlannedRun<'r, A: Allocator + Copy, C: RunCrew<A>> {
    pub(crate) crew: &'r C,
    pub(crate) requests: &'r Run<A>,
    pub(crate) plan: Plan<A>,
    pub(crate) accesses: &'r [&'r Access<A>],
    pub(crate) answers: Vec<AccessAnswer<A>, A>,
}

/// Makes a planned run. Returns the machine after it, with what the run answers; an error means that the host is out of
/// memory, and that the machine is as it was.
pub(crate) fn make_run<A, C>(
    machine: Machine<A>,
    planned: PlannedRun<'_, A, C>,
) -> (Machine<A>, Result<RunAnswer<A>, AllocError>)
where
    A: Allocator + Copy + Send + Sync,
    C: RunCrew<A>,
    requires bounds { IsSend A.row × IsSync A.row × Frees A.Allocator A.dealloc_token }
    requires alike { HasOneAll planned.requests.now.wanted.items }
    requires target { planned.requests.now.target < node_count machine.layout }
    requires plan { IsPlanOf machine planned.requests.now.target planned.requests.now.wanted.items planned.plan }
    requires empty { planned.answers.items ≡ [] }
    requires room { length planned.accesses.now ≤ vec_capacity planned.answers }

    // On success
    ensures run { IfOk result.1
        (λ landed. ran_by result.0 landed
        ≡ result_of_run machine (asked_by planned.entry.requests.now planned.entry.accesses.now)) }
    ensures failed { IfOk result.1 (λ landed. landed.failed ≡ failures landed.statuses.items) }
    ensures events { IfOk result.1
        (λ landed. (x : Flight) × (jobs : Vec (Job _) _)
        × C.has_done planned.entry.crew.now jobs (Flight × Vec (Given _) _) (x, landed.answers)
        × GoesByEvents machine (asked_by planned.entry.requests.now planned.entry.accesses.now) x jobs.items
        (ran_by result.0 landed)) }

    // Without memory
    ensures err { OnErr result.1 (result.0 ≡ machine) }
    ensures allocates { OnErr result.1 (0 < length planned.entry.requests.now.wanted.items + length planned.entry.accesses.now) }
{
    let PlannedRun {
        crew,
        requests,
        plan,
        accesses,
        answers,
    } = planned;
    let moves = plan.moves();
    let mut run = PreparedRun::of(machine);
    match run.prepare(requests.target, moves, accesses) {
        Ok(all_due) => {
            let (run, jobs) = run.begin(moves);
            let (run, jobs, answers) = run.copy_beside(crew, jobs, all_due, answers);
            let (machine, failed) = run.finish(jobs, plan.statuses());
            let answer = RunAnswer {
                statuses: plan.into_statuses(),
                failed,
                answers,
            };
            (machine, Ok(answer))
        }
        Err(error) => (run.into_machine(), Err(error)),
    }
}
