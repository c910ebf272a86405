//! The three traits of timestamps. One ghost member, `times`, has the order, the operations and the
//! least time, so that the definitions of every layer take one argument for all of them. The traits
//! say by laws what its members are; each implementation proves them once.
ghost use Rattle.std.specs.Prelude.{◌≡◌, IsTrue};
ghost use Rattle.lattice.specs.Times.{Times};
ghost use Rattle.lattice.specs.Order.{PartialOrderLaws, LatticeLaws, ExtendsLaws};

/// Times with a partial order: it is reflexive, transitive and antisymmetric, and two times need
/// not be comparable. Of `times`, this trait says what `below` is, [`Lattice`] what `joined` and
/// `met` are, and [`Minimum`] what `least` is.
pub trait PartialOrder {
    ghost times: { Times Self };

    /// Whether this time is at or before the other. Takes no memory.
    fn less_equal(&self, other: &Self) -> bool
        ensures { result ≡ times.below self.now other.now };

    ghost order: { PartialOrderLaws times };
}

/// Times of which any two have a least upper bound and a greatest lower bound. `Ord` is the order
/// for sorting: it extends `less_equal`, and times that are equal under it are identical.
pub trait Lattice: PartialOrder + Ord + Copy + Default {
    /// The least time that is at or after both. Takes no memory.
    fn join(self, other: Self) -> Self
        ensures { result ≡ Self.times.joined self other };

    /// The greatest time that is at or before both. Takes no memory.
    fn meet(self, other: Self) -> Self
        ensures { result ≡ Self.times.met self other };

    ghost bounds: { LatticeLaws Self.times };

    ghost extends: { ExtendsLaws Self.times Self.cmp };
}

/// Times with a least one. In a clause a number has no upper limit, so `value` says which values
/// the type holds: 0 to 18446744073709551615 for `u64`, and for a pair whatever its components
/// hold.
pub trait Minimum: Lattice {
    ghost value: { Self → Type 0 };

    /// The least time. Takes no memory.
    fn minimum() -> Self
        ensures { result ≡ Self.times.least };

    /// Tells the prover that this time is a value that the type holds. Costs nothing.
    fn known(&self)
        ensures { value self.now };

    ghost lowest: { (t : Self) → value t → IsTrue (Self.times.below Self.times.least t) };
}
