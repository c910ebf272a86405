//! Products of times: a pair is at or before another if both of its components are. If both
//! component types implement one of the traits of times, then so does the pair. So a timestamp with
//! three axes is a pair of a pair and a number.
ghost use Rattle.std.specs.Prelude.{Some, codes};
ghost use Rattle.std.specs.Fmt.{◌++?◌};
ghost use Rattle.std.proofs.lemmas.Bool.{and_from};

use crate::{Lattice, Minimum, PartialOrder};
use std::fmt;

/// A time with two axes. It sorts by its first component, then by its second.
#[derive(Clone, Copy, Default, PartialEq, Eq, PartialOrd, Ord)]
pub struct Pair<A, B> {
    /// The time along the first axis: the valid time of a [`Bitime`].
    pub first: A,
    /// The time along the second axis: the system time of a [`Bitime`].
    pub second: B,
}

/// A valid time, from which on a change is in effect, and a system time, at which it was recorded.
pub type Bitime = Pair<u64, u64>;

impl<A: PartialOrder, B: PartialOrder> PartialOrder for Pair<A, B> {
    ghost use Rattle.lattice.specs.Pairs.{pair_times, pair_order};

    ghost times = { pair_times A.times B.times };

    ghost order = { pair_order A.order B.order };

    fn less_equal(&self, other: &Pair<A, B>) -> bool {
        self.first.less_equal(&other.first) && self.second.less_equal(&other.second)
    }
}

impl<A: Lattice, B: Lattice> Lattice for Pair<A, B> {
    ghost use Rattle.lattice.specs.Pairs.{pair_bounds, pair_extends};

    ghost bounds = { pair_bounds A.bounds B.bounds };

    ghost extends = { pair_extends A.extends B.extends };

    fn join(self, other: Pair<A, B>) -> Pair<A, B> {
        Pair {
            first: self.first.join(other.first),
            second: self.second.join(other.second),
        }
    }

    fn meet(self, other: Pair<A, B>) -> Pair<A, B> {
        Pair {
            first: self.first.meet(other.first),
            second: self.second.meet(other.second),
        }
    }
}

impl<A: Minimum, B: Minimum> Minimum for Pair<A, B> {
    ghost value = { λ p. A.value p.first × B.value p.second };

    ghost lowest = { λ p h. and_from _ _ (A.lowest p.first h.0) (B.lowest p.second h.1) };

    fn minimum() -> Pair<A, B> {
        Pair {
            first: A::minimum(),
            second: B::minimum(),
        }
    }

    fn known(&self) {
        self.first.known();
        self.second.known();
    }
}

/// Both components, separated by one space, as a script writes a time: `5 2`, or `5 2 7` with three
/// axes.
impl<A: fmt::Display, B: fmt::Display> fmt::Display for Pair<A, B> {
    ghost output = { λ p. A.output p.first ++? Some (codes " ") ++? B.output p.second };

    fn fmt<W: fmt::Write>(&self, f: &mut fmt::Formatter<W>) -> fmt::Result {
        let first = &self.first;
        let second = &self.second;
        write!(f, "{first} {second}")
    }
}
