//! Join: the bilinear operator of differential dataflow.
//!
//! A join pairs each left row with each right row of the same key. Updates come to both sides at
//! many times, in batches. What is due for a new batch are its pairs with all updates that the
//! other side has received. The pair of two updates is visible only from the join of their times:
//! there both of them are, and at no earlier time. So a late correction of either side is right
//! also at times that cannot be compared with those of the other side.
//!
//! - [`JoinState`] keeps how far each side was acknowledged, and gives exactly the new pairs. It
//!   reads the other side through [`Trace`](trace::Trace), so many joins share one arrangement, and
//!   merging and compaction go on behind them.
//! - [`Side`] is the left or the right side, for callers who know it only when they run.
//! - [`pairs_are_the_join`], [`pieces_pair_up`], [`both_sides_once`],
//!   [`compacted_sides_do_not_matter`] and [`goes_on`] are laws of pairs in every lattice. At each
//!   time the pairs of two lists sum to the join of what the lists sum to. Pairs may be formed
//!   piece by piece and in any order. A side may be compacted as of any frontier that all times of
//!   the other side are beyond. So output that was right for all that was received stays right with
//!   one more batch.
//!
//! What the pairs of two lists are is defined in `specs/Pairs.antt`.
#![tactic(auto)]

mod formed;
mod laws;
mod side;
mod state;

pub use laws::{
    both_sides_once, compacted_sides_do_not_matter, goes_on, pairs_are_the_join, pieces_pair_up,
};
pub use side::Side;
pub use state::JoinState;
