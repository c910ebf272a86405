//! Times in the order of command files: the valid time, then the system time. All tests make their
//! times here. So no test can swap the two while another does not.
ghost use Rattle.std.specs.Prelude.{◌≡◌};
ghost use Rattle.lattice.specs.Pairs.{make_pair};

use lattice::{Bitime, Pair};

/// The time with this valid time and this system time. Takes no memory; constant cost.
pub fn at(valid: u64, system: u64) -> Bitime
    ensures { result ≡ make_pair valid system }
{
    Pair {
        first: valid,
        second: system,
    }
}
