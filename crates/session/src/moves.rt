//! Moves: which worker does what next, as data.
//!
//! A list of moves is a schedule. Since a step says which of its pieces the worker takes, and each
//! number is one, every order in which workers can take pieces is such a list.
ghost use Rattle.std.specs.Prelude.{◌≡◌};
ghost use Rattle.session.specs.Moves.{AreMoved, HasMoved, IsMoved};

use lattice::Minimum;
use shared_board::BoardProtocol;
use std::alloc::Global;
use steps::Worker;
use update::Refusal;

/// What a worker does next.
#[derive(Clone, Copy, Drop)]
pub enum Move {
    /// A step, [`Worker::step_at`].
    Step {
        /// The worker's place in the list of workers.
        worker: usize,
        /// Which of its pieces a worker without a piece takes, reduced modulo their number.
        pick: usize,
    },
    /// Between two steps, [`Worker::tidy`].
    Tidy {
        /// The worker's place in the list of workers.
        worker: usize,
        /// How many updates may be copied.
        fuel: u64,
    },
}

impl Move {
    ghost use Rattle.session.specs.Moves.{place_of};

    // The place of the worker that moves.
    fn place(&self) -> usize
        ensures { result ≡ place_of self.now }
    {
        match self {
            Move::Step { worker, .. } | Move::Tidy { worker, .. } => *worker,
        }
    }
}

// A worker makes a move.
fn make_of<T: Minimum, P: BoardProtocol<T>>(
    alloc: Global,
    worker: &mut Worker<T, P>,
    move_: &Move,
) -> Result<(), Refusal>
    ensures { HasMoved T.times T.cmp move_.now worker.old worker.new result }
{
    match move_ {
        Move::Step { pick, .. } => {
            let _step = worker.step_at(alloc, *pick)?;
        }
        Move::Tidy { fuel, .. } => {
            let _tidy = worker.tidy(alloc, *fuel)?;
        }
    }
    Ok(())
}

// Makes one move of all workers.
fn make<T: Minimum, P: BoardProtocol<T>>(
    alloc: Global,
    workers: &mut [Worker<T, P>],
    move_: &Move,
) -> Result<(), Refusal>
    ensures { IsMoved T.times T.cmp move_.now workers.old workers.new result }
{
    let place = move_.place();
    if place >= workers.len() {
        return Ok(());
    }
    make_of(alloc, &mut workers[place], move_)
}

/// Makes these moves, one after another, on the caller's thread. A move of a worker that is not
/// there does nothing, and so does one that finds the board away. It ends at the first refusal, and
/// keeps what was done until then: 1, 10 and 12, as [`Worker::step_at`] and [`Worker::tidy`] say.
pub fn drive<T: Minimum, P: BoardProtocol<T>>(
    alloc: Global,
    workers: &mut [Worker<T, P>],
    moves: &[Move],
) -> Result<(), Refusal>
    ensures { AreMoved T.times T.cmp moves.now workers.old workers.new result }
{
    for move_ in moves {
        make(alloc, workers, move_)?;
    }
    Ok(())
}
