//! How long a worker rests after it found the board away.
//!
//! Each rest in a row is twice as long, and each step that had the board halves the next one. So of
//! many workers with short pieces one or two go on, and the board stays in the caches of their
//! cores. With short rests the board would move from core to core with each piece, which takes
//! longer than the piece.
use std::{hint, thread};

// The longest rest, in turns of the loop: some ten microseconds.
const LONGEST: u32 = 4096;

/// The rest of one worker.
#[derive(Drop)]
pub(crate) struct Rest {
    turns: u32,
}

impl Rest {
    /// The shortest rest.
    pub(crate) fn new() -> Rest {
        Rest { turns: 1 }
    }

    /// Rests, and then lets another thread of this core go first. The next rest is twice as long.
    pub(crate) fn take(&mut self) {
        for _ in 0..self.turns {
            hint::spin_loop();
        }
        thread::yield_now();
        self.turns = self.turns.saturating_mul(2).min(LONGEST);
    }

    /// The next rest is half as long.
    pub(crate) fn shorten(&mut self) {
        self.turns = (self.turns / 2).max(1);
    }
}
