//! The one refusal of this crate. The numbered list of refusals is in the crate `update`, which
//! stands on this one. So this refusal has a type of its own, and `From` turns it into one of that
//! list.
ghost use Rattle.std.specs.Prelude.{◌≡◌};

use thiserror::Error;

// The number of this refusal in the list of all refusals.
const NUMBER: u8 = 2;

/// The row would have no columns, or more than eight.
#[derive(Clone, Copy, Debug, PartialEq, Eq, Error)]
#[error("a row has 1 to 8 columns")]
pub struct WidthRefused;

impl WidthRefused {
    /// The number of this refusal in the list of all refusals: 2.
    pub fn code(self) -> u8
        ensures { result ≡ 2 }
    {
        NUMBER
    }
}
