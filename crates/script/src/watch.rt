//! Who is told how far a run is.
//!
//! A run tells its watcher of each line and asks it nothing, so no contract of a run names the
//! watcher: whatever it does, the output takes the same text.
use grammar::CommandLine;

/// Is told of each line that a run has carried out.
pub trait Watch {
    /// The line was carried out. Its text may still wait before the output.
    fn done(&mut self, line: &CommandLine);
}

/// Nobody is told.
#[derive(Clone, Copy, Default)]
pub struct Unwatched;

impl Watch for Unwatched {
    fn done(&mut self, _line: &CommandLine) {}
}
