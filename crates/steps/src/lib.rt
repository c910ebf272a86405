//! Steps: a worker of any number, among any workers and clients, as a user of the board runs it.
//!
//! A [`Worker`] is an actor of the board with its desk, and with what it has in hand. Make one of
//! an actor with [`Worker::new`]. A call of [`Worker::step`] tries once to enter the board, and
//! never waits: another actor may have the board just then. With nothing in hand the worker takes a
//! piece and computes it. With a piece in hand it gives what it computed. So each step is one
//! event, or none. [`Worker::step_at`] is the same for a schedule that says which piece is taken.
//!
//! Between two steps call [`Worker::tidy`] now and then: it looks at the board once, changes no
//! answer, and keeps the desk small. [`Worker::kept`] tells how many updates an arrange node keeps.
//!
//! That desk and hand are right for what the worker has seen is the invariant of the type. So a
//! step may be made at any time, and after any refusal. A worker that met a number which 64 bits
//! cannot say has failed, and takes no more steps.
#![tactic(auto)]

mod give;
mod step;
mod take;
mod tidy;
mod worker;

pub use step::Step;
pub use worker::Worker;
