//! Putting a list in the order of a batch: one sort by row and time, which makes neighbours of the
//! updates of each row and time, and one pass that adds these up and keeps the order.
ghost use Rattle.std.specs.Prelude.{◌≡◌, ◌≤◌, ◌↔◌, List, ℤ, Bool, IfOk, IfErr, IsErr, IsTrue};
ghost use Rattle.std.specs.List.{list_all};
ghost use Rattle.std.specs.List.Sorted.{IsPermutation, IsSortedBy};
ghost use Rattle.std.specs.Ordering.{is_lt};
ghost use Rattle.update.specs.Updates.{total_where, HasLargeTotal, size};
ghost use Rattle.update.specs.declared.refusal.Refusal.{Refusal};
ghost use Rattle.batch.specs.Batches.{IsSealed, by_row_then_time};

use lattice::{Lattice, Minimum};
use update::{Refusal, Update, consolidate_grouped};

// Sorts a list by row, then by time.
fn sort_by_row<T: Lattice>(updates: &mut Vec<Update<T>>)
    ensures sorted { IsSortedBy (λ u v. is_lt (by_row_then_time T.cmp u v)) updates.new.items }
    ensures moved { IsPermutation updates.old.items updates.new.items }
{
    updates.sort_unstable_by(|u, v| u.row.cmp(&v.row).then(u.time.cmp(&v.time)));
}

// The only sealed list with the totals of these updates.
pub(crate) fn sealed_list<T: Lattice>(
    mut updates: Vec<Update<T>>,
) -> Result<Vec<Update<T>>, Refusal>
    ensures sealed { IfOk result (λ out. IsSealed T.cmp out.items) }
    ensures totals { IfOk result (λ out. (p : List ℤ → T → Bool)
        → total_where p out.items ≡ total_where p updates.items) }
    ensures among { IfOk result (λ out. (p : List ℤ → T → Bool)
        → IsTrue (list_all (λ u. p u.row u.time) updates.items)
        → IsTrue (list_all (λ u. p u.row u.time) out.items)) }
    ensures size { IfOk result (λ out. size out.items ≤ size updates.items) }
    ensures overflow { IsErr result ↔ HasLargeTotal T.times updates.items }
    ensures only { IfErr result (λ refused. refused ≡ Refusal.Overflow) }
{
    sort_by_row(&mut updates);
    consolidate_grouped(updates)
}

// Tells the prover that each time is at or after the least one. Costs nothing.
pub(crate) fn known_times<T: Minimum>(updates: &[Update<T>])
    ensures { IsTrue (list_all (λ u. T.times.below T.times.least u.time) updates.now) }
{
    for update in updates {
        update.time.known();
    }
}
