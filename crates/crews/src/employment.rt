//! The workers of a board on the caller's thread, one after another.
//!
//! Each steps until there is no piece for it. Then it tidies its desk: next to nothing is
//! outstanding then, so its questions for frontiers cost next to nothing, and the board need not
//! keep the answers while a long list of changes is worked off. So its holds follow the frontiers
//! with each call, and what it merges in the next steps is advanced up to there. A sole worker
//! leaves the board quiet, if no client changed anything meanwhile. Only a number that is too large
//! stops it before, or want of memory.
ghost use Rattle.std.specs.Prelude.{◌≡◌, ◌⊎◌, IfErr, IfOk, IfSome, IsTrue, OnOk};
ghost use Rattle.std.specs.List.{AllByRecursion};
ghost use Rattle.lattice.specs.Bitimes.{bitime_times};
ghost use Rattle.update.specs.Refusals.{OnlyMemory};
ghost use Rattle.update.specs.declared.refusal.Refusal.TheVariants.{OutOfMemory};
ghost use Rattle.crews.specs.Employment.{HasNothingToDo};

use lattice::Bitime;
use shared_board::BitemporalBoards;
use std::alloc::Global;
use std::mem;
use std::sync::Wait;
use steps::{Step, Worker};
use update::Refusal;

pub(crate) type BoardWorker = Worker<Bitime, BitemporalBoards>;

/// Each worker steps until there is no piece for it, and tidies. One that met a number which is too
/// large tells that, so that the clients hear of it, and is not among the workers any more. Refused
/// only with `OutOfMemory`; then the workers are of no use.
///
/// Cost: that of [`Worker::step`] for each piece, and for each worker that of [`Worker::tidy`]
/// without fuel. The workers move out of the list and back, which costs some hundred bytes for
/// each.
pub(crate) fn carry_on<R: Wait>(
    runtime: &R,
    alloc: Global,
    workers: &mut Vec<BoardWorker>,
) -> Result<(), Refusal>
    ensures idle { OnOk result
        (AllByRecursion (HasNothingToDo bitime_times) workers.new.items) }
    ensures refused { OnlyMemory result }
{
    for worker in mem::replace(workers, Vec::new(alloc)) {
        if let Some(worker) = carried_on(runtime, alloc, worker)? {
            workers.push(worker)?;
        }
    }
    Ok(())
}

// The worker goes on until there is no piece for it, and tidies. If it has failed, it tells that,
// and does not come back.
fn carried_on<R: Wait>(
    runtime: &R,
    alloc: Global,
    mut worker: BoardWorker,
) -> Result<Option<BoardWorker>, Refusal>
    ensures idle { IfOk result
        (λ there. IfSome there (HasNothingToDo bitime_times)) }
    ensures refused { OnlyMemory result }
{
    match clear(runtime, alloc, &mut worker) {
        Ok(()) => Ok(Some(worker)),
        Err(Refusal::OutOfMemory) => Err(Refusal::OutOfMemory),
        Err(_) => {
            worker.tell_too_large(runtime);
            Ok(None)
        }
    }
}

// Steps until there is no piece, and tidies. To tidy the worker looks at the board, and what is
// promised is of its last look. So it looks for a piece once more.
fn clear<R: Wait>(runtime: &R, alloc: Global, worker: &mut BoardWorker) -> Result<(), Refusal>
    ensures idle { OnOk result (HasNothingToDo bitime_times worker.new) }
    ensures refused { IfErr result (λ refusal.
        (refusal ≡ OutOfMemory) ⊎ IsTrue worker.new.failed) }
{
    step_on(runtime, alloc, worker)?;
    worker.tidy(alloc, 0)?;
    step_on(runtime, alloc, worker)
}

// Steps until there is no piece.
fn step_on<R: Wait>(runtime: &R, alloc: Global, worker: &mut BoardWorker) -> Result<(), Refusal>
    ensures idle { OnOk result (HasNothingToDo bitime_times worker.new) }
    ensures refused { IfErr result (λ refusal.
        (refusal ≡ OutOfMemory) ⊎ IsTrue worker.new.failed) }
{
    for _ in runtime.forever() {
        if let Step::Idle { .. } = worker.step(alloc)? {
            return Ok(());
        }
    }
    unreachable!()
}
