//! The process's own outputs, of which no contract says where their bytes go, and lines that take
//! no memory.
use output::{Out, OutFault, put_all};
use std::io::Write;
use std::{fmt, str};

/// A writer, as an [`Out`].
#[derive(Drop)]
pub(crate) struct Output<W> {
    pub(crate) writer: W,
}

impl<W: Write> Out for Output<W> {
    ghost use Rattle.std.specs.Prelude.{⊤};

    ghost took = { λ _ _ _ _. ⊤ };

    ghost at_once = { λ _. tt };

    ghost in_turn = { λ _ _ _ _ _ _ _ _ _. tt };

    fn put(&mut self, bytes: &[u8]) -> Result<usize, OutFault> {
        match self.writer.write(bytes) {
            Ok(0) | Err(_) => Err(OutFault),
            Ok(taken) => Ok(taken),
        }
    }
}

/// Standard error, as an [`Out`]. Takes no memory.
#[derive(Drop)]
pub(crate) struct StandardError<'r, R> {
    pub(crate) runtime: &'r R,
}

impl<R: Eprint> Out for StandardError<'_, R> {
    ghost use Rattle.std.specs.Prelude.{⊤};

    ghost took = { λ _ _ _ _. ⊤ };

    ghost at_once = { λ _. tt };

    ghost in_turn = { λ _ _ _ _ _ _ _ _ _. tt };

    fn put(&mut self, bytes: &[u8]) -> Result<usize, OutFault> {
        let Ok(text) = str::from_utf8(bytes) else {
            return Err(OutFault);
        };
        match self.runtime.eprint(text) {
            Ok(()) => Ok(bytes.len()),
            Err(_) => Err(OutFault),
        }
    }
}

// Takes the parts of a line as they are formatted, so that to tell what went wrong takes no memory.
#[derive(Drop)]
pub(crate) struct Told<'e, E> {
    pub(crate) error: &'e mut E,
}

impl<E: Out> fmt::Write for Told<'_, E> {
    fn write_str(&mut self, part: &str) -> fmt::Result {
        match put_all(self.error, part.as_bytes()) {
            Ok(()) => Ok(()),
            Err(_failed) => Err(fmt::Error),
        }
    }
}
