//! The commands of a script. A command changes an input, gives up a part of a view's past, or asks
//! about a view. Those about inputs and those that ask are two types, so that a function that takes
//! one of them has no arm for the other. Names are already resolved: a command names a node by its
//! number, and each [`Script`](crate::Script) promises that this node is an input, or a view if the
//! command is about one.
use lattice::Bitime;
use plan::NodeId;
use row::Row;
use update::Times;

/// A command that changes an input. It prints nothing if it is accepted.
#[derive(Drop)]
pub enum InputCommand {
    /// Adds `diff` to the row's count from `time` on.
    Change {
        input: NodeId,
        time: Bitime,
        diff: i64,
        row: Row,
    },
    /// Moves the input's frontier: every later change of the input must be at or after one of these
    /// times. There is at least one.
    Advance {
        input: NodeId,
        times: Times<Bitime>,
    },
    /// Closes the input: it accepts no more changes.
    Close {
        input: NodeId,
    },
}

/// A command that asks about a view. It prints an answer and changes nothing.
#[derive(Drop)]
pub enum ViewCommand {
    /// Asks for the view's rows at the time.
    Read { view: NodeId, time: Bitime },
    /// Asks for the view's changes at the times that its frontier has passed.
    Changes { view: NodeId },
    /// Asks for the view's frontier.
    Frontier { view: NodeId },
}

/// A line after `start`.
#[derive(Drop)]
pub enum Command {
    /// A command that changes an input.
    Input(InputCommand),
    /// Gives up a part of a view's past: from then on it may be read only at or after one of these
    /// times. There is at least one. It prints nothing if it is accepted.
    Allow { view: NodeId, times: Times<Bitime> },
    /// A command that asks about a view.
    View(ViewCommand),
}

/// A command with the number of its line. Lines are counted from 1, and skipped lines count too.
#[derive(Drop)]
pub struct CommandLine {
    pub line: u64,
    pub command: Command,
}
