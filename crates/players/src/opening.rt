//! The workers and the client of one session.
//!
//! The workers are in a list of the caller, their crew ([`session::open`] says why).
ghost use Rattle.std.specs.Prelude.{◌≡◌, ◌≤◌};
ghost use Rattle.shared_board.specs.Tenures.{opening_in};

use crate::client::Client;
use lattice::Minimum;
use plan::Plan;
use session::open;
use shared_board::BoardProtocol;
use std::alloc::Global;
use std::sync::Wait;
use steps::Worker;
use update::Refusal;

/// Opens a session for so many workers and one client. The workers are the crew then, in the order
/// of their numbers.
pub fn opened<T: Minimum, P: BoardProtocol<T>, R: Wait>(
    rt: &R,
    alloc: Global,
    plan: &Plan,
    workers: usize,
    crew: &mut Vec<Worker<T, P>>,
) -> Result<Client<T, P>, Refusal> {
    let mut clients = open(rt, alloc, plan, workers, 1, crew)?;
    let Some(client) = clients.pop() else {
        return Err(Refusal::BadWorkers);
    };
    Ok(Client::new(alloc, client, plan.clone()?))
}
