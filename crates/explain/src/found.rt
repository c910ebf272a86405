//! What was found in a file: its first fault, and how many faults and warnings there are.
use grammar::Fault;

/// What was found in a command file.
#[derive(Clone, Copy, Debug, PartialEq, Eq)]
pub struct Found {
    /// The first fault, which is also the one that [`grammar::parse`] finds; `None` if there is
    /// none.
    pub fault: Option<Fault>,
    /// How many lines are at fault, one past the last included if there is no `start`.
    pub faults: u64,
    /// How many warnings were written. There are none in a file with a fault.
    pub warnings: u64,
}
