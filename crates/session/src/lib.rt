//! A session: one board, its workers and its clients, to be embedded.
//!
//! [`open`] makes the board of a plan, its workers and its clients. A [`Client`] changes inputs and
//! asks views. Each call is one try to have the board for one event. If another actor has it just
//! then, the call is refused with `Busy`, and nothing has happened. So no call waits, and a caller
//! may have any number of clients on one thread or on many. A caller that may wait uses its twin,
//! whose name ends in `_wait`. What a call answers is right for the state that it found, whatever
//! others did before: its one clause says so of all that the client has seen.
//!
//! Workers step on any thread. A list of [`Move`]s is a schedule, and [`drive`] follows it on the
//! caller's thread. [`run_threads`] runs each worker on a thread of its own until the board is
//! quiet, and lets them through a [`Gate`] before each step. Which schedule it is changes no
//! answer.
#![tactic(auto)]

mod client;
mod moves;
mod opening;
mod rest;
mod signals;
mod threads;

pub use client::Client;
pub use moves::{Move, drive};
pub use opening::open;
pub use threads::{Gate, OpenGate, Works, run_threads};
