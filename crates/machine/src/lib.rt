//! The machine: which events may happen between clients and workers, what each event leaves behind,
//! and what then holds of every legal history.
//!
//! A dataflow runs a plan on some workers. Clients feed changes and move the frontiers of the
//! inputs. Workers take bundles of updates, compute without looking at anyone else, and give the
//! updates that come out. Each of these is one event. A history is a list of events, and it is
//! legal if each event was allowed when it happened. A history leaves a state, which is a record of
//! logs. Frontiers are found from it: from what is in flight, what workers hold and what the inputs
//! leave open. The theorems are functions with empty bodies ([`headline`] and those beside it).
//! They say of every legal history that what a view captured is right at each time that its
//! frontier has passed. They know neither threads nor batches. An engine may run a dataflow in any
//! way; it has to show only that its steps are these events.
//!
//! The [`Board`] is the state between clients and workers, in memory. Each call that changes it is
//! one event, and each contract says so in the same way: for every history that the board may stand
//! for before the call, it stands afterwards for that history with the board's last event on top. A
//! `give` promises this only if the event is allowed, which the board cannot test. A question to
//! the board, such as a view's rows, is answered for every history that it may stand for. Waiting
//! bundles lie in queues by node, worker and port, so an event costs only what it moves. A tally
//! counts what is outstanding, and keeps the frontiers that somebody asks about.
//!
//! The events and the theorems stand in the crate `histories`. What waits, what is held and the
//! inputs' frontiers stand in `accounts`, with the tally that counts them, and what is kept of
//! views in `views`. This crate joins them to a board, and hands their names on.
//!
//! A client calls `feed`, `advance`, `close`, `allow` and `look`, and reads by `frontier`, `read`,
//! `changes` and `is_quiet`. A worker finds work by `waiting_at` or `is_ready` and starts on it by
//! `take` or `take_held`. It computes up to the node's `input_frontier`, cuts the output by `cut`,
//! and gives it by `give`. `cut` belongs to a [`Routing`], which is made once from the plan and the
//! number of workers. How far one port of a node has come, `port_frontier` tells: a worker that
//! knows it may let go of what only earlier times would need.
//!
//! A worker that gives has two duties. The first is the node law: at every time that is not beyond
//! the times it still holds, what it gave is what the node makes of what it received. This makes
//! views right. The second is the load rule: what it gave is no larger than that output can become,
//! and a reduction gives only what is final. This keeps every number within its node's bound, so a
//! number is too large only if a bound is.
#![tactic(auto)]

mod board;

pub use accounts::{CutEmission, Ungiven};
pub use board::Board;
pub use board::pieces::Piece;
pub use board::promises::{later_sinces_keep_sums, meets};
pub use board::routing::Routing;
pub use histories::{
    Bundle, Bundles, Emission, Event, Fed, HeldTime, OpenTime, RememberedEmission, Site,
    bounds_are_kept, bundles_wait_in_order, clients_are_apart, definitions_fit_examples,
    frontiers_do_not_go_back, headline, nothing_lurks, one_list, own_bounds_are_met,
    parts_of_workers, port_frontiers_are_the_input_frontier, premises_can_be_met,
    quiet_is_caught_up, stamps_are_frontiers, two_workers_can_exchange, what_waits_has_its_place,
    workers_are_apart,
};
pub use outstanding::{InputFrontiers, MAX_CHANGES, MAX_DIFFERENCE};
pub use views::View;
