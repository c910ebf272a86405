//! An output that keeps the bytes it took. It serves tests, and callers that want a run's text as
//! bytes.
ghost use Rattle.std.specs.Prelude.{◌≡◌, []};

use crate::outputs::{Out, OutFault};
use std::alloc::Global;
use std::marker::Model;

/// An output in memory. A contract sees the bytes that it took. It fails only if memory is refused.
#[derive(Drop)]
pub struct MemoryOut {
    bytes: Vec<u8>,
}

impl Model for MemoryOut {
    ghost use Rattle.std.specs.Prelude.{List, ℕ};

    ghost Value = { List ℕ };

    ghost view = { λ out. out.bytes.items };
}

impl MemoryOut {
    /// An output that has taken nothing. Takes no memory.
    pub fn new(alloc: Global) -> MemoryOut
        ensures { result ≡ [] }
    {
        MemoryOut {
            bytes: Vec::new(alloc),
        }
    }

    /// The bytes that it took, in order. Takes no memory.
    pub fn bytes(&self) -> &[u8]
        ensures { result.now ≡ self.now }
    {
        self.bytes.as_slice()
    }
}

impl Out for MemoryOut {
    ghost use Rattle.std.specs.Prelude.{◌≡◌, ◌++◌};
    ghost use Rattle.output.specs.AppendLaws.{nothing_more, more_and_more};

    ghost took = { λ out bytes failures later. later ≡ out ++ bytes };

    ghost at_once = { λ out. nothing_more out };

    ghost in_turn = { λ s t u xs ys m n h k. more_and_more s t u xs ys h k };

    fn put(&mut self, bytes: &[u8]) -> Result<usize, OutFault> {
        match self.bytes.extend_from_slice(bytes) {
            Ok(()) => Ok(bytes.len()),
            Err(_) => Err(OutFault),
        }
    }
}
