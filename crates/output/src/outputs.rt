//! Outputs: which bytes they took, and how many calls failed.
//!
//! An output may take fewer bytes than it is given, as a pipe does. The writer then puts the rest,
//! until nothing is left. The contract does not say where the bytes go: that is up to each output.
ghost use Rattle.std.specs.Prelude.{ℕ, ◌<◌, ◌≤◌, ◌+◌, ◌++◌, List, [], IfOk, OnErr, OnOk, length, take};
ghost use Rattle.output.specs.Outs.{IsBeginning};

use thiserror::Error;

/// Bytes could not be written.
#[derive(Clone, Copy, Debug, PartialEq, Eq, Error)]
#[error("the bytes could not be put")]
pub struct OutFault;

/// A place to write bytes to.
pub trait Out {
    /// Between the two states of the output, these bytes were taken, in this order, and this many
    /// calls failed.
    ghost took: { Self → List ℕ → ℕ → Self → Type 0 };

    /// Takes at least one byte from the front and returns how many it took; or fails and takes
    /// none.
    fn put(&mut self, bytes: &[u8]) -> Result<usize, OutFault>
        requires { 0 < length bytes.now }
        ensures some { IfOk result (λ n. (0 < n) × (n ≤ length bytes.now)
            × took self.old (take n bytes.now) 0 self.new) }
        ensures failed { OnErr result (took self.old [] 1 self.new) };

    /// Without a call, nothing is taken.
    ghost at_once: { (s : Self) → took s [] 0 s };

    /// The bytes of one call are followed by those of the next.
    ghost in_turn: { (s t u : Self) (xs ys : List ℕ) (m n : ℕ) → took s xs m t → took t ys n u
        → took s (xs ++ ys) (m + n) u };
}

/// Puts all the bytes. If a call fails, only a beginning of them was taken.
///
/// Cost: at most one call for each byte.
pub fn put_all<W: Out>(out: &mut W, bytes: &[u8]) -> Result<(), OutFault>
    ensures all { OnOk result (W.took out.old bytes.now 0 out.new) }
    ensures beginning { OnErr result ((part : List ℕ) × IsBeginning part bytes.now
        × W.took out.old part 1 out.new) }
{
    let mut at = 0;
    while at < bytes.len() {
        at += out.put(&bytes[at..])?;
    }
    Ok(())
}
