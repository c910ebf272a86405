//! An output with room for so many bytes. It fails once they are taken.
ghost use Rattle.std.specs.Prelude.{⊤};

use output::{MemoryOut, Out, OutFault};
use std::alloc::Global;

#[derive(Drop)]
pub(crate) struct Narrow {
    room: usize,
    inside: MemoryOut,
}

impl Narrow {
    pub fn new(alloc: Global, room: usize) -> Narrow {
        Narrow {
            room,
            inside: MemoryOut::new(alloc),
        }
    }

    // The bytes that it took.
    pub fn bytes(&self) -> &[u8] {
        self.inside.bytes()
    }
}

impl Out for Narrow {
    ghost took = { λ out bytes failures later. ⊤ };

    ghost at_once = { λ out. tt };

    ghost in_turn = { λ s t u xs ys m n h k. tt };

    fn put(&mut self, bytes: &[u8]) -> Result<usize, OutFault> {
        if self.room == 0 {
            return Err(OutFault);
        }
        let end = bytes.len().min(self.room);
        let put = self.inside.put(&bytes[..end])?;
        self.room -= put;
        Ok(put)
    }
}
