//! Weights: numbers that say how often a row counts. A sum of weights may not fit in 64 bits. An
//! operation never wraps: it gives nothing if and only if the type does not hold the exact result.
ghost use Rattle.std.specs.Prelude.{ℤ, ◌+ℤ◌, ◌*ℤ◌, neg_ℤ, FitsSigned, SomeIff, option_map};
ghost use Rattle.std.specs.Int.{w64};

/// Numbers with the addition, negation and multiplication of whole numbers, as far as the type
/// reaches. Contracts see each as a whole number, and `holds` says which whole numbers the type
/// has.
pub trait Weight {
    ghost whole: { Self → ℤ };

    ghost holds: { ℤ → Type 0 };

    /// The sum, or nothing if and only if the type does not hold it. Takes no memory.
    fn plus(self, other: Self) -> Option<Self>
        ensures { let sum = whole self +ℤ whole other in SomeIff (option_map whole result)
            (holds sum) sum };

    /// The number with the opposite sign, or nothing if and only if the type does not hold it.
    /// Takes no memory.
    fn negate(self) -> Option<Self>
        ensures { let other = neg_ℤ (whole self) in SomeIff (option_map whole result)
            (holds other) other };

    /// The product, or nothing if and only if the type does not hold it. Takes no memory.
    fn times(self, other: Self) -> Option<Self>
        ensures { let product = whole self *ℤ whole other in SomeIff (option_map whole result)
            (holds product) product };
}

/// The numbers from -9223372036854775808 to 9223372036854775807.
impl Weight for i64 {
    ghost whole = { λ number. number };

    ghost holds = { FitsSigned w64 };

    fn plus(self, other: i64) -> Option<i64> {
        self.checked_add(other)
    }

    fn negate(self) -> Option<i64> {
        self.checked_neg()
    }

    fn times(self, other: i64) -> Option<i64> {
        self.checked_mul(other)
    }
}
