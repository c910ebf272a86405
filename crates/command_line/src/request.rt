//! What can be asked for on the command line. A request borrows its words from the arguments.

use lattice::Bitime;

/// What is done with a command file.
#[derive(Clone, Copy)]
pub enum Action<'a> {
    /// Runs the commands of a file with workers.
    Run {
        /// The file's name.
        file: &'a str,
        /// The number of workers, 1 to 16.
        workers: u64,
    },
    /// Writes the same text without workers, with every answer computed from scratch.
    Plain {
        /// The file's name.
        file: &'a str,
    },
    /// Parses the commands without carrying them out.
    Check {
        /// The file's name.
        file: &'a str,
    },
}

impl<'a> Action<'a> {
    /// The name of the file to read.
    pub fn file(&self) -> &'a str {
        match self {
            Action::Run { file, workers: _ } | Action::Plain { file } | Action::Check { file } =>
                file,
        }
    }
}

/// Two reads of a view that are to be compared.
#[derive(Clone, Copy)]
pub struct Comparison<'a> {
    /// The name of the command file.
    pub file: &'a str,
    /// The name of the view.
    pub view: &'a str,
    /// The time of the first read.
    pub first: Bitime,
    /// The time of the second read.
    pub second: Bitime,
    /// The number of workers, 1 to 16.
    pub workers: u64,
}

/// What the command line asks for.
#[derive(Clone, Copy)]
pub enum Request<'a> {
    /// Acts on a command file, and tells how far it is if that is wanted.
    Act {
        /// What is done.
        action: Action<'a>,
        /// Whether progress is told on standard error.
        has_progress: bool,
    },
    /// Tells in words what is wrong with a command file.
    Explain {
        /// The file's name.
        file: &'a str,
    },
    /// Tells what differs between two reads of a view.
    Compare(Comparison<'a>),
    /// Makes a command file and a dictionary of a CSV file.
    Import {
        /// The name of the schema's file.
        schema: &'a str,
        /// The name of the CSV file.
        table: &'a str,
    },
    /// Writes the text of a run as CSV, with the names of a dictionary.
    Show {
        /// The name of the dictionary's file.
        dictionary: &'a str,
        /// The name of the file with the run's text.
        text: &'a str,
    },
}
