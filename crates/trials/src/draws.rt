//! Numbers that look drawn, and changes that are made of them. They are the same in each run, so a
//! test that fails once fails again.
ghost use Rattle.std.specs.Prelude.{◌≡◌, ◌<◌, IfOk};

use lattice::Bitime;
use row::Row;
use std::alloc::Global;
use update::{Refusal, Update};

/// Numbers that look drawn, the same ones in each run.
#[derive(Drop)]
pub struct Draws {
    state: u64,
}

impl Draws {
    /// The numbers that follow this one.
    pub fn new(state: u64) -> Draws {
        Draws { state }
    }

    /// The next number below `n`.
    pub fn below(&mut self, n: u64) -> u64
        requires { 0 < n }
        ensures { result < n }
    {
        self.state = self
            .state
            .wrapping_mul(6_364_136_223_846_793_005)
            .wrapping_add(1_442_695_040_888_963_407);
        (self.state >> 33) % n
    }

    /// A change at this time. Keys and rows are few, so that many changes are of the same ones, and
    /// some rows go more often than they came.
    pub fn change(&mut self, alloc: Global, time: Bitime) -> Result<Update<Bitime>, Refusal>
        ensures { IfOk result (λ update. update.time ≡ time) }
    {
        let row = Row::new(alloc, &[self.below(4) as i64, self.below(3) as i64])?;
        let diff = if self.below(3) == 0 { -1 } else { 1 };
        Ok(Update { time, row, diff })
    }
}
