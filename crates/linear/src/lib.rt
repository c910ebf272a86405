//! Linear operators: what map, filter, concat and negate make of updates.
//!
//! These operators ignore time. Each works update by update, and its output for two lists together
//! is its output for each, together. So a worker can apply a node to every piece of input as it
//! comes, and then forget the piece. No state is kept, and no update waits for another.
//!
//! [`apply`] does this in place, in the list that it is given, and takes no memory. The clause
//! `applied` of its contract says which list comes out, and the rest follows from that.
//! [`pieces_add_up`] and [`plans_fit`] state it for a caller that has only the definitions: at
//! every time, the sum of the output is the operator's output for the sum of the input, and the
//! output is never larger than the input. The linear nodes of a plan meet what `apply` requires. A
//! caller without a plan can test it with [`Node::is_linear`](plan::Node) and [`takes_rows`].
#![tactic(auto)]

mod application;
mod fit;
mod laws;

pub use application::apply;
pub use fit::takes_rows;
pub use laws::{pieces_add_up, plans_fit};
