//! Amounts in pieces, since one change takes at most 2147483647.
ghost use Rattle.std.specs.Prelude.{◌≡◌, ◌≤◌, ◌<◌, ◌+◌, ◌^◌, ◌==◌, pos, ◌+ℤ◌, ◌*ℤ◌, unsigned_abs, neg_ℤ, if◌then◌else◌};
ghost use Rattle.std.specs.Int.{is_negative};

/// The greatest difference of one change.
const MOST: u64 = 2_147_483_647;

/// An amount as equal pieces and a rest. Each piece is one that a change takes.
#[derive(Clone, Copy, Debug, PartialEq, Eq)]
pub struct Pieces {
    /// 2147483647 or -2147483647.
    pub full: i64,
    /// How many full pieces there are.
    pub times: u64,
    /// What is left; 0 if nothing is.
    pub rest: i64,
}

impl Pieces {
    /// How many pieces there are, with the rest if it is not 0.
    pub fn count(&self) -> u64
        requires { self.now.times ≤ 2 ^ 33 }
        ensures { result ≡ self.now.times + (if unsigned_abs self.now.rest == 0 then 0 else 1) }
    {
        if self.rest == 0 {
            self.times
        } else {
            self.times + 1
        }
    }
}

// The number with the sign of the other one.
fn with_sign_of(sign: i64, number: u64) -> i64
    requires { number < 2 ^ 63 }
    ensures size { unsigned_abs result ≡ number }
    ensures sign { result ≡ (if is_negative sign then neg_ℤ (pos number) else pos number) }
{
    if sign < 0 {
        -(number as i64)
    } else {
        number as i64
    }
}

/// The amount as pieces that one change takes. They sum to it: so many times the full piece, and
/// the rest.
pub fn split(amount: i64) -> Pieces
    ensures sum { result.full *ℤ pos result.times +ℤ result.rest ≡ amount }
    ensures full { unsigned_abs result.full ≡ 2_147_483_647 }
    ensures rest { unsigned_abs result.rest < 2_147_483_647 }
    ensures few { result.times ≤ 2 ^ 33 }
{
    let units = amount.unsigned_abs();
    Pieces {
        full: with_sign_of(amount, MOST),
        times: units / MOST,
        rest: with_sign_of(amount, units % MOST),
    }
}
