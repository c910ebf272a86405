//! Levels: a batch list in which merges go on from call to call.
//!
//! A merge of two large batches takes longer than a worker may be away from its inputs. So it goes
//! on by fuel, a few updates at a time, and the batches that it reads stay in the list until the
//! new one is whole. Readers see these, and never a merge.
//!
//! While a long merge is under way, small batches come in behind it. If nothing else could be
//! merged until it is whole, then they would pile up. So merges are stacked: a new one may be begun
//! behind those that are under way, and the newest alone goes on. It is the shortest mostly, and
//! when it is whole, it changes nothing before its place. So the numbers of the others stay.
//!
//! - [`Levels`] is the list and the stack. It knows no readers and has no policy: a spine decides
//!   which merge is begun, and when one is given up.
//! - [`Place`] says which batches a merge reads: two neighbours, or one batch alone, which is
//!   rewritten as of a later frontier.
#![tactic(auto)]

mod levels;
mod underway;

pub use levels::{Levels, Step};
pub use underway::Place;
