//! Why text was not printed.
ghost use Rattle.std.specs.Prelude.{◌≡◌};

use crate::outputs::OutFault;
use std::alloc::AllocError;
use thiserror::Error;

/// Why text was not printed.
#[derive(Clone, Copy, Debug, PartialEq, Eq, Error)]
pub enum PrintFault {
    /// An allocation was refused.
    #[error("no memory")]
    OutOfMemory,
    /// A call of the output failed.
    #[error("not written")]
    Write,
}

impl From<OutFault> for PrintFault {
    ghost use Rattle.std.specs.Prelude.{◌≡◌};
    ghost use Rattle.output.specs.declared.fault.PrintFault.TheVariants.{Write};

    ghost from_gives = { λ _ fault. fault ≡ Write };

    fn from(_failed: OutFault) -> PrintFault {
        PrintFault::Write
    }
}

impl From<AllocError> for PrintFault {
    ghost use Rattle.std.specs.Prelude.{◌≡◌};
    ghost use Rattle.output.specs.declared.fault.PrintFault.TheVariants.{OutOfMemory};

    ghost from_gives = { λ _ fault. fault ≡ OutOfMemory };

    fn from(_refused: AllocError) -> PrintFault {
        PrintFault::OutOfMemory
    }
}
