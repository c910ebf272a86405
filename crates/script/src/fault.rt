//! Why a run ended before the last line.
ghost use Rattle.std.specs.Prelude.{◌≡◌};

use output::OutFault;
use std::alloc::AllocError;
use thiserror::Error;
use update::Refusal;

/// Why a run ended early. A beginning of the script's text has been written. If a number was too
/// large, it is the whole text of the lines before the one that asked for it.
#[derive(Clone, Copy, Debug, PartialEq, Eq, Error)]
pub enum RunFault {
    /// The engine refused, with this code of [`Refusal::code`]: 1 if memory was refused, 10 if a
    /// number does not fit in 64 bits, 23 if the number of workers is not supported. No run returns
    /// 24, which is reserved for a thread that does not start.
    #[error("refused with {0}")]
    Refused(u8),
    /// A call of the output failed.
    #[error("not written")]
    Write,
}

impl From<OutFault> for RunFault {
    ghost use Rattle.std.specs.Prelude.{◌≡◌};
    ghost use Rattle.script.specs.declared.fault.RunFault.TheVariants.{Write};

    ghost from_gives = { λ _ fault. fault ≡ Write };

    fn from(_failed: OutFault) -> RunFault {
        RunFault::Write
    }
}

impl From<Refusal> for RunFault {
    ghost use Rattle.std.specs.Prelude.{◌≡◌};
    ghost use Rattle.update.specs.Refusals.{code_of};
    ghost use Rattle.script.specs.declared.fault.RunFault.TheVariants.{Refused};

    ghost from_gives = { λ refusal fault. fault ≡ Refused (code_of refusal) };

    fn from(refusal: Refusal) -> RunFault {
        RunFault::Refused(refusal.code())
    }
}

impl From<AllocError> for RunFault {
    ghost use Rattle.std.specs.Prelude.{◌≡◌};
    ghost use Rattle.script.specs.declared.fault.RunFault.TheVariants.{Refused};

    ghost from_gives = { λ _ fault. fault ≡ Refused 1 };

    fn from(_refused: AllocError) -> RunFault {
        RunFault::Refused(1)
    }
}
