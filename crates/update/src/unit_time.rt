//! The lattice with only one time. A list of updates at that time is a list of rows with counts,
//! and a consolidated one is a bag. So bags need no sorting or merging code of their own.

use lattice::{Lattice, PartialOrder};

/// The one time.
#[derive(Clone, Copy, Default, PartialEq, Eq, PartialOrd, Ord)]
pub(crate) struct UnitTime;

impl PartialOrder for UnitTime {
    ghost use Rattle.update.specs.UnitTimes.{unit_times, unit_order};

    ghost times = { unit_times };

    ghost order = { unit_order };

    fn less_equal(&self, _other: &UnitTime) -> bool {
        true
    }
}

impl Lattice for UnitTime {
    ghost use Rattle.update.specs.UnitTimes.{unit_bounds, unit_extends};

    ghost bounds = { unit_bounds };

    ghost extends = { unit_extends };

    fn join(self, _other: UnitTime) -> UnitTime {
        self
    }

    fn meet(self, _other: UnitTime) -> UnitTime {
        self
    }
}
