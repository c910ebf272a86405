//! Whole numbers as times along one axis. Any two can be compared; the join is the greater and the
//! meet the lesser.
ghost use Rattle.std.specs.Prelude.{◌≡◌, ◌<◌, ◌^◌};
ghost use Rattle.lattice.specs.Naturals.{nat_times, nat_order, nat_bounds, nat_extends, nat_lowest};

use crate::{Lattice, Minimum, PartialOrder};

impl PartialOrder for u64 {
    ghost times = { nat_times };

    ghost order = { nat_order };

    fn less_equal(&self, other: &u64) -> bool {
        *self <= *other
    }
}

impl Lattice for u64 {
    ghost bounds = { nat_bounds };

    ghost extends = { nat_extends };

    fn join(self, other: u64) -> u64 {
        self.max(other)
    }

    fn meet(self, other: u64) -> u64 {
        self.min(other)
    }
}

impl Minimum for u64 {
    ghost value = { λ t. t < 2 ^ 64 };

    ghost lowest = { λ t _. nat_lowest t };

    fn minimum() -> u64 {
        u64::MIN
    }

    fn known(&self) {
        let _value = *self;
    }
}
