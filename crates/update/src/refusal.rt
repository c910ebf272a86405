//! Every refusal of the engine, by a name and a number. It is the one error type of all crates
//! above: a caller can match on the name, and a command file prints the number. Crates below have
//! small refusals of their own, and `From` turns each into one of these.
ghost use Rattle.std.specs.Prelude.{◌≡◌};

use antichain::NoMemory;
use row::WidthRefused;
use std::alloc::{AllocError, AllocFailed};
use std::error::Error;
use std::fmt;

/// Why a call was refused. [`Refusal::code`] is its number.
#[derive(Clone, Copy, Debug, PartialEq, Eq)]
pub enum Refusal {
    /// Memory was refused. The same call may succeed later.
    OutOfMemory = 1,
    /// A row does not have the columns that are asked for: those of its input, or 1 to 8.
    WrongWidth = 2,
    /// The difference of a change is 0.
    ZeroWeight = 3,
    /// The difference of a change is above 2147483647 or below -2147483647.
    WeightTooLarge = 4,
    /// The input's frontier has passed the time of a change.
    TimePassed = 5,
    /// A frontier would go back: one of the new times is not beyond the old frontier.
    NotForward = 6,
    /// The input has accepted 1048576 changes.
    InputFull = 7,
    /// The view's frontier has not passed the time, so its rows there may still change.
    NotPassed = 8,
    /// The time is not beyond the view's since, so its rows there are no longer kept.
    GivenUp = 9,
    /// A count, a total or a product does not fit in 64 bits.
    Overflow = 10,
    /// Another thread has the board.
    Busy = 11,
    /// The worker failed in an earlier step, and takes no more.
    Failed = 12,
    /// The plan has 256 nodes already.
    TooManyNodes = 13,
    /// No node has the name or number, or the node is of another sort.
    UnknownName = 14,
    /// Another node has the name.
    DuplicateName = 15,
    /// An item names a column that the source does not have.
    BadColumn = 16,
    /// The sources of a `concat` have different widths.
    WidthMismatch = 17,
    /// A source of a join or a reduction is not arranged.
    NotArranged = 18,
    /// The sources of a join are arranged by keys of different widths.
    KeyMismatch = 19,
    /// A width is not 1 to 8.
    BadWidth = 20,
    /// A key has no columns, or more than the source has.
    BadKey = 21,
    /// An update lies outside the interval of its batch, or a batch does not begin where the one
    /// before it ends.
    Stray = 22,
    /// The number of workers or clients is not allowed.
    BadWorkers = 23,
    /// A thread could not be started.
    NoThread = 24,
    /// A command, a kind of node or a comparison is unknown.
    UnknownCommand = 31,
    /// A line has too few or too many words.
    WrongWordCount = 32,
    /// A word is no number, or no item.
    BadNumber = 33,
    /// A line is on the wrong side of `start`, or `start` is missing.
    BadOrder = 34,
    /// A line has more than 4096 bytes.
    LineTooLong = 35,
    /// A line is not UTF-8.
    NotUtf8 = 36,
    /// A new name does not have the form of one: 1 to 32 letters, digits and `_`, a letter first.
    BadName = 37,
}

impl Refusal {
    ghost use Rattle.update.specs.Refusals.{code_of};

    /// The number of the refusal, as a command file prints it.
    pub fn code(self) -> u8
        ensures { result ≡ code_of self }
    {
        self as u8
    }

    // What is printed for the refusal.
    fn text(self) -> &'static str {
        match self {
            Refusal::OutOfMemory => "no memory",
            Refusal::WrongWidth => "the row has the wrong number of columns",
            Refusal::ZeroWeight => "the difference is 0",
            Refusal::WeightTooLarge => "the difference is above 2147483647 or below -2147483647",
            Refusal::TimePassed => "the frontier has passed the time",
            Refusal::NotForward => "the frontier would go back",
            Refusal::InputFull => "the input has taken 1048576 changes",
            Refusal::NotPassed => "the view's frontier has not passed the time",
            Refusal::GivenUp => "the time was given up",
            Refusal::Overflow => "a weight is no 64-bit number",
            Refusal::Busy => "the board is away",
            Refusal::Failed => "the worker failed before",
            Refusal::TooManyNodes => "the plan has 256 nodes",
            Refusal::UnknownName => "no such name, or a name of another sort",
            Refusal::DuplicateName => "the name is taken",
            Refusal::BadColumn => "the source has no such column",
            Refusal::WidthMismatch => "the sources have different widths",
            Refusal::NotArranged => "the source is not arranged",
            Refusal::KeyMismatch => "the sources are arranged by different keys",
            Refusal::BadWidth => "a width that is not 1 to 8",
            Refusal::BadKey => "a key of no columns, or of more than the source has",
            Refusal::Stray => "the batch or group does not fit here",
            Refusal::BadWorkers => "the number of workers or clients is not 1 to 16",
            Refusal::NoThread => "a thread could not be started",
            Refusal::UnknownCommand => "an unknown command, kind or comparison",
            Refusal::WrongWordCount => "too few or too many words",
            Refusal::BadNumber => "not a number or an item",
            Refusal::BadOrder => "on the wrong side of `start`",
            Refusal::LineTooLong => "a line of more than 4096 bytes",
            Refusal::NotUtf8 => "a line that is not UTF-8",
            Refusal::BadName => "not a name",
        }
    }
}

// The texts are written by hand: a derive for so many variants takes eight seconds to prove and
// says no more.
impl fmt::Display for Refusal {
    fn fmt<W: fmt::Write>(&self, f: &mut fmt::Formatter<W>) -> fmt::Result {
        f.write_str(self.text())
    }
}

impl Error for Refusal {}

impl From<AllocError> for Refusal {
    ghost use Rattle.std.specs.Prelude.{◌≡◌};
    ghost use Rattle.update.specs.declared.refusal.Refusal.TheVariants.{OutOfMemory};

    ghost from_gives = { λ _ r. r ≡ OutOfMemory };

    fn from(_refused: AllocError) -> Refusal {
        Refusal::OutOfMemory
    }
}

impl<T: Drop> From<AllocFailed<T>> for Refusal {
    ghost use Rattle.std.specs.Prelude.{◌≡◌};
    ghost use Rattle.update.specs.declared.refusal.Refusal.TheVariants.{OutOfMemory};

    ghost from_gives = { λ _ r. r ≡ OutOfMemory };

    fn from(_refused: AllocFailed<T>) -> Refusal {
        Refusal::OutOfMemory
    }
}

impl From<NoMemory> for Refusal {
    ghost use Rattle.std.specs.Prelude.{◌≡◌};
    ghost use Rattle.update.specs.declared.refusal.Refusal.TheVariants.{OutOfMemory};

    ghost from_gives = { λ _ r. r ≡ OutOfMemory };

    fn from(_refused: NoMemory) -> Refusal {
        Refusal::OutOfMemory
    }
}

impl From<WidthRefused> for Refusal {
    ghost use Rattle.std.specs.Prelude.{◌≡◌};
    ghost use Rattle.update.specs.declared.refusal.Refusal.TheVariants.{WrongWidth};

    ghost from_gives = { λ _ r. r ≡ WrongWidth };

    fn from(_refused: WidthRefused) -> Refusal {
        Refusal::WrongWidth
    }
}
