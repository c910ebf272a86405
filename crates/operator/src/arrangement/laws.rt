//! Why a reader that has taken the first batches of an arrangement has taken all that was inserted
//! up to a boundary. The function does nothing: it is called, or its clause cited, for what it
//! promises.
ghost use Rattle.std.specs.Prelude.{◌≡◌, List};
ghost use Rattle.trace.specs.Readings.{Insertion, AreUpTo, reached};
ghost use Rattle.operator.specs.Arrangements.{AreInTurn};
ghost use Rattle.operator_laws.specs.JoinNodes.{on_top};

use lattice::Lattice;

/// If each insertion goes on from where those before it ended, and has updates, then no two of them
/// end at one frontier. So the first of them are all up to the frontier that they have reached.
pub fn what_is_taken_is_up_to_a_boundary<T: Lattice>()
    ensures { (start : List T) (inserted later taken : List (Insertion T))
        → inserted ≡ on_top later taken → AreInTurn T.times start inserted
        → AreUpTo start (reached start taken) inserted taken }
{}
