//! What is given of a key at one time: what is wanted there less what was given up to it. What is
//! wanted is the answer for the bag of the key's rows at the time. Both are put down at that one
//! time, the second with the other sign, and consolidated once. So a total is refused only where
//! the change itself is too large, and what stays the same leaves no update.
ghost use Rattle.std.specs.Prelude.{◌≡◌, ◌≢◌, ◌++◌, IfOk, IfErr, IfSome, IsTrue, List, ℤ, length, pos};
ghost use Rattle.std.specs.List.{AllByRecursion, list_all, filter};
ghost use Rattle.update.specs.Bags.{Entry};
ghost use Rattle.update.specs.Refusals.{IsMemoryOrOverflow};
ghost use Rattle.update.specs.declared.change.Update.{Update};
ghost use Rattle.plan.specs.Reductions.{has_key};
ghost use Rattle.joined_times.specs.Joined.{of_key};
ghost use Rattle.correction.specs.Corrections.{Corrects, HasLargeChange};
ghost use Rattle.correction.specs.Evaluations.{IsAnswer, IsEvaluation};

use crate::draft::draft_of;
use crate::evaluation::Evaluation;
use lattice::Lattice;
use std::alloc::Global;
use update::{Refusal, Update, consolidate};

/// What is given of a key at a time, and the evaluation that it comes from.
#[derive(Drop)]
pub struct Correction<T> {
    /// What is given.
    pub given: Vec<Update<T>>,
    /// The evaluation.
    pub evaluation: Evaluation<T>,
}

/// What is to be given of a key at the time of an evaluation, if `given` is what was given of it
/// before. `last` is what was evaluated at the time before, if there was one. What the answer is,
/// the clauses leave to the caller: they hold for each reducer and each list of rows of which it is
/// the answer.
///
/// - [`Refusal::Overflow`] only if the count of a row is to change by no 64-bit number.
/// - [`Refusal::OutOfMemory`] only if memory was refused.
///
/// Cost: that of a draft (`draft_of`), and n log n in the length of the draft.
pub fn correct<T: Lattice>(
    alloc: Global,
    key: &[i64],
    evaluation: Evaluation<T>,
    given: &[Update<T>],
    last: &Option<Evaluation<T>>,
) -> Result<Correction<T>, Refusal>
    requires keyed { IsTrue (list_all (has_key (length key.now) key.now) evaluation.answer) }
    requires given { IsTrue (list_all (of_key (length key.now) key.now) given.now) }
    requires last { IfSome last.now (IsEvaluation T.times given.now) }
    ensures corrects { IfOk result
        (λ correction. (reduce : List ℤ → List Entry → List Entry) (content rows : List (Update T))
        → rows ≡ filter (of_key (length key.now) key.now) content
        → IsAnswer T.times reduce key.now rows evaluation.time evaluation.answer
        → Corrects T.times (length key.now) reduce content given.now key.now evaluation.time
        correction.given.items) }
    ensures nonzero { IfOk result
        (λ correction. AllByRecursion (λ u. u.diff ≢ pos 0) correction.given.items) }
    ensures evaluation { IfOk result (λ correction.
        IsEvaluation T.times (given.now ++ correction.given.items) correction.evaluation) }
    ensures time { IfOk result (λ correction. correction.evaluation.time ≡ evaluation.time) }
    ensures refused { IfErr result (IsMemoryOrOverflow
        ((reduce : List ℤ → List Entry → List Entry) (content rows : List (Update T))
        → rows ≡ filter (of_key (length key.now) key.now) content
        → IsAnswer T.times reduce key.now rows evaluation.time evaluation.answer
        → HasLargeChange T.times (length key.now) reduce content given.now key.now
        evaluation.time)) }
{
    let draft = draft_of(alloc, evaluation.time, &evaluation.answer, given, last)?;
    let given = consolidate(draft)?;
    Ok(Correction { given, evaluation })
}
