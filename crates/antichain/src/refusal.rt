//! The one refusal of this crate. The numbered list of refusals is in the crate `update`, which
//! stands on this one. So this refusal has a type of its own, and `From` turns it into one of that
//! list.
ghost use Rattle.std.specs.Prelude.{◌≡◌};

use std::alloc::{AllocError, AllocFailed};
use thiserror::Error;

// The number of this refusal in the list of all refusals.
const NUMBER: u8 = 1;

/// Memory for one more element was refused.
#[derive(Clone, Copy, Debug, PartialEq, Eq, Error)]
#[error("no memory")]
pub struct NoMemory;

impl NoMemory {
    /// The number of this refusal in the list of all refusals: 1.
    pub fn code(self) -> u8
        ensures { result ≡ 1 }
    {
        NUMBER
    }
}

impl From<AllocError> for NoMemory {
    fn from(_refused: AllocError) -> NoMemory {
        NoMemory
    }
}

impl<T: Drop> From<AllocFailed<T>> for NoMemory {
    fn from(_refused: AllocFailed<T>) -> NoMemory {
        NoMemory
    }
}
