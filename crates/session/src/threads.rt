//! Workers on threads: each steps on a thread of its own until it finds the board quiet.
//!
//! What a thread does reaches the others through the hub alone, so nothing is proved here of
//! boards: each worker stands for the events of its own pass, on whichever thread it steps. What is
//! here is who starts, who waits, and how a run ends. A worker lies under a lock of its own, which
//! its thread takes once, since a scope can lend a list of locks to its threads and not a list of
//! workers.
//!
//! A worker for which there is nothing sleeps until the bell rings (`signals`). One that finds the
//! board away rests before it tries again (`rest`). Who gives rings the bell, unless more bundles
//! wait for it at the node: then it gives nothing yet. No clause says that a run ends: tests do.
ghost use Rattle.std.specs.Prelude.{IfErr};
ghost use Rattle.std.specs.Result.{ForErr};
ghost use Rattle.std.specs.Thread.{IsSync};
ghost use Rattle.update.specs.Refusals.{OnlyMemory};
ghost use Rattle.session.specs.Threads.{EndsThreads, EndsWork};

use crate::rest::Rest;
use crate::signals::Signals;
use lattice::Minimum;
use shared_board::BoardProtocol;
use std::alloc::Global;
use std::sync::{Mutex, Wait};
use std::thread::{Scope, Threads, scope, scope_env};
use steps::{Step, Worker};
use update::Refusal;

/// A place where each worker passes before each of its steps.
pub trait Gate {
    /// A worker is about to step. `worker` is its place in the list, and `done` how many of its
    /// steps in this run took or gave something. It may wait.
    fn pass(&self, worker: usize, done: u64);
}

/// A gate at which nobody waits.
pub struct OpenGate;

impl Gate for OpenGate {
    fn pass(&self, _worker: usize, _done: u64) {}
}

/// What works on a thread of its own, step by step.
pub trait Works {
    /// Makes a step.
    fn step(&mut self, alloc: Global) -> Result<Step, Refusal>
        ensures { IfErr result EndsWork };

    /// Whether its next step gives nothing, and a piece is there for it after that.
    fn holds_for_more(&self) -> bool;

    /// Merges what it keeps. Whether there is nothing left to merge.
    fn tidy(&mut self, alloc: Global, fuel: u64) -> Result<bool, Refusal>
        ensures { IfErr result EndsWork };
}

impl<T: Minimum, P: BoardProtocol<T>> Works for Worker<T, P> {
    fn step(&mut self, alloc: Global) -> Result<Step, Refusal> {
        Worker::step(self, alloc)
    }

    fn holds_for_more(&self) -> bool {
        Worker::holds_for_more(self)
    }

    fn tidy(&mut self, alloc: Global, fuel: u64) -> Result<bool, Refusal> {
        Worker::tidy(self, alloc, fuel)
    }
}

// A worker, and how its part of the run ended.
#[derive(Drop)]
struct Seat<'w, W> {
    worker: &'w mut W,
    told: Result<(), Refusal>,
    ghost ended: { ForErr told EndsWork },
}

// Tidies until nothing is left to merge, or another worker was refused.
fn tidy_up<W: Works, R: Wait>(
    rt: &R,
    alloc: Global,
    worker: &mut W,
    signals: &Signals,
) -> Result<(), Refusal>
    ensures { IfErr result EndsWork }
{
    let mut rest = Rest::new();
    for _ in rt.forever() {
        if signals.has_stopped() || worker.tidy(alloc, u64::MAX)? {
            return Ok(());
        }
        rest.take();
    }
    unreachable!()
}

// Steps until the board is quiet, or another worker was refused; then tidies.
fn take_turns<W: Works, G: Gate, R: Wait>(
    rt: &R,
    alloc: Global,
    worker: &mut W,
    place: usize,
    gate: &G,
    signals: &Signals,
) -> Result<(), Refusal>
    ensures { IfErr result EndsWork }
{
    let mut rest = Rest::new();
    let mut done: u64 = 0;
    for _ in rt.forever() {
        if signals.has_stopped() {
            return Ok(());
        }
        gate.pass(place, done);
        let heard = signals.rings();
        let gives = !worker.holds_for_more();
        match worker.step(alloc)? {
            Step::Took => done = done.saturating_add(1),
            Step::Gave => {
                done = done.saturating_add(1);
                if gives {
                    signals.ring(rt);
                }
            }
            Step::Idle { quiet: true } => return tidy_up(rt, alloc, worker, signals),
            Step::Idle { .. } => signals.sleep(rt, heard),
            Step::Busy => {
                rest.take();
                continue;
            }
        }
        rest.shorten();
    }
    unreachable!()
}

// One worker's part of the run. If it is refused, the others stop.
fn run_seat<W: Works, G: Gate, R: Wait>(
    rt: &R,
    alloc: Global,
    seat: &Mutex<Seat<'_, W>>,
    place: usize,
    gate: &G,
    signals: &Signals,
) {
    let mut seat = seat.lock(rt);
    let told = take_turns(rt, alloc, &mut *seat.worker, place, gate, signals);
    if told.is_err() {
        signals.stop(rt);
    }
    seat.told = told;
}

// Puts each worker under a lock of its own.
fn seated<'w, W>(alloc: Global, workers: &'w mut [W]) -> Result<Vec<Mutex<Seat<'w, W>>>, Refusal>
    ensures { OnlyMemory result }
{
    let mut seats = Vec::new(alloc);
    let each = workers.iter_mut();
    for worker in each {
        seats.push(Mutex::new(Seat {
            worker,
            told: Ok(()),
        }))?;
    }
    Ok(seats)
}

// Starts a thread for each seat. All have ended when it answers.
fn run_all<W: Works + Send, G: Gate + Sync, R: Threads + Wait + Sync>(
    rt: &R,
    alloc: Global,
    seats: &[Mutex<Seat<'_, W>>],
    gate: &G,
    signals: &Signals,
) -> bool {
    scope(
        scope_env(),
        rt,
        |s: &Scope<'_, _>| -> bool
            requires { IsSync R.row }
        {
            for at in 0..seats.len() {
                let seat = &seats[at];
                if s.spawn(move || run_seat(rt, alloc, seat, at, gate, signals))
                    .is_err()
                {
                    signals.stop(rt);
                    return false;
                }
            }
            true
        },
    )
}

// The refusal of the lowest worker that was refused.
fn first_told<W>(seats: Vec<Mutex<Seat<'_, W>>>) -> Result<(), Refusal>
    ensures { IfErr result EndsWork }
{
    for seat in seats {
        let Seat { told, .. } = seat.into_inner();
        told?;
    }
    Ok(())
}

/// Runs workers at once, each on a thread of its own, and comes back when all of them have ended. A
/// worker ends when it finds the board quiet; then it merges what it keeps. If one is refused or a
/// thread could not be made, the others end before their next step. What was done stays done, so
/// the next run goes on from there.
///
/// Refused with [`Refusal::NoThread`], else as the refused worker of the lowest place: with
/// [`Refusal::OutOfMemory`], [`Refusal::Overflow`] or [`Refusal::Failed`], as [`Worker::step_at`]
/// says.
///
/// Cost: a thread for each worker, and what their steps cost.
pub fn run_threads<W: Works + Send, G: Gate + Sync, R: Threads + Wait + Sync>(
    rt: &R,
    alloc: Global,
    workers: &mut [W],
    gate: &G,
) -> Result<(), Refusal>
    ensures { IfErr result EndsThreads }
{
    let signals = Signals::new();
    let seats = seated(alloc, workers)?;
    if !run_all(rt, alloc, seats.as_slice(), gate, &signals) {
        return Err(Refusal::NoThread);
    }
    first_told(seats)
}
