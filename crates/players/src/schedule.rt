//! Orders of steps: one worker alone, workers and pieces that are drawn, and rounds of all workers.
//! Between drawn steps a worker tidies, with little fuel.
use crate::client::Client;
use lattice::Minimum;
use session::{Move, drive};
use shared_board::BoardProtocol;
use std::alloc::Global;
use std::sync::Wait;
use steps::{Step, Worker};
use trials::Draws;
use update::Refusal;

/// Steps one worker until it is idle. Answers whether the board was quiet then. `None` if the
/// worker is still not idle after 10,000 steps.
pub fn until_idle<T: Minimum, P: BoardProtocol<T>>(
    alloc: Global,
    worker: &mut Worker<T, P>,
) -> Result<Option<bool>, Refusal> {
    for _ in 0..10_000 {
        if let Step::Idle { quiet } = worker.step(alloc)? {
            return Ok(Some(quiet));
        }
    }
    Ok(None)
}

/// The same, but a step that is refused memory is made again.
pub fn until_idle_at_last<T: Minimum, P: BoardProtocol<T>>(
    alloc: Global,
    worker: &mut Worker<T, P>,
) -> Result<Option<bool>, Refusal> {
    for _ in 0..10_000 {
        match worker.step(alloc) {
            Ok(Step::Idle { quiet }) => return Ok(Some(quiet)),
            Ok(_) | Err(Refusal::OutOfMemory) => {}
            Err(refusal) => return Err(refusal),
        }
    }
    Ok(None)
}

// A worker that is drawn makes a step, with a piece that is drawn, and tidies.
fn drawn_step<T: Minimum, P: BoardProtocol<T>>(
    alloc: Global,
    workers: &mut [Worker<T, P>],
    draws: &mut Draws,
) -> Result<Step, Refusal> {
    if workers.is_empty() {
        return Err(Refusal::BadWorkers);
    }
    let drawn = draws.below(workers.len() as u64) as usize;
    let pick = draws.below(20) as usize;
    let worker = &mut workers[drawn];
    let step = worker.step_at(alloc, pick)?;
    let _tidy = worker.tidy(alloc, draws.below(3))?;
    Ok(step)
}

// A move that is drawn: a step, with a piece that is drawn, or tidying with little fuel.
fn drawn_move(draws: &mut Draws, worker: usize, i: u64) -> Move {
    if i % 2 == 0 {
        return Move::Step {
            worker,
            pick: draws.below(20) as usize,
        };
    }
    Move::Tidy {
        worker,
        fuel: draws.below(3),
    }
}

/// Makes so many drawn steps, with tidying behind each of them: a schedule that is drawn.
pub fn drawn_steps<T: Minimum, P: BoardProtocol<T>>(
    alloc: Global,
    workers: &mut [Worker<T, P>],
    draws: &mut Draws,
    count: u64,
) -> Result<(), Refusal> {
    if workers.is_empty() {
        return Err(Refusal::BadWorkers);
    }
    let mut moves = Vec::new(alloc);
    let mut worker = 0;
    for i in 0..count.saturating_mul(2) {
        if i % 2 == 0 {
            worker = draws.below(workers.len() as u64) as usize;
        }
        moves.push(drawn_move(draws, worker, i))?;
    }
    drive(alloc, workers, &moves)
}

/// Makes drawn steps until one of them finds the board quiet. `false` if none of 100,000 does.
pub fn until_quiet<T: Minimum, P: BoardProtocol<T>>(
    alloc: Global,
    workers: &mut [Worker<T, P>],
    draws: &mut Draws,
) -> Result<bool, Refusal> {
    for _ in 0..100_000 {
        if let Step::Idle { quiet: true } = drawn_step(alloc, workers, draws)? {
            return Ok(true);
        }
    }
    Ok(false)
}

// A round: each worker makes a step with the last of its pieces, and tidies with fuel for one unit.
// The number of the piece is one less than a multiple of each number of pieces up to 20.
fn round(alloc: Global, workers: usize) -> Result<Vec<Move>, Refusal> {
    let mut moves = Vec::new(alloc);
    for worker in 0..workers {
        moves.push(Move::Step {
            worker,
            pick: 232_792_559,
        })?;
        moves.push(Move::Tidy { worker, fuel: 1 })?;
    }
    Ok(moves)
}

/// Drives all workers round by round, until the client finds the board quiet. `false` if it is not
/// in 10,000 rounds.
pub fn driven_until_quiet<T: Minimum, P: BoardProtocol<T>, R: Wait>(
    rt: &R,
    alloc: Global,
    workers: &mut [Worker<T, P>],
    client: &mut Client<T, P>,
) -> Result<bool, Refusal> {
    let moves = round(alloc, workers.len())?;
    for _ in 0..10_000 {
        drive(alloc, workers, &moves)?;
        if client.is_quiet(rt)? {
            return Ok(true);
        }
    }
    Ok(false)
}

/// Whether all that may be merged is, once each worker tidies with the greatest fuel.
pub fn are_tidy<T: Minimum, P: BoardProtocol<T>>(
    alloc: Global,
    workers: &mut [Worker<T, P>],
) -> Result<bool, Refusal> {
    for worker in workers {
        if !worker.tidy(alloc, u64::MAX)? {
            return Ok(false);
        }
    }
    Ok(true)
}

/// Whether a step of each worker, one after another, finds the board quiet.
pub fn are_idle<T: Minimum, P: BoardProtocol<T>>(
    alloc: Global,
    workers: &mut [Worker<T, P>],
) -> Result<bool, Refusal> {
    for worker in workers {
        if !matches!(worker.step(alloc)?, Step::Idle { quiet: true }) {
            return Ok(false);
        }
    }
    Ok(true)
}
