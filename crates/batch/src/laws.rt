//! Why a sealed list can stand for all lists with its totals, why nothing is left to be added up in
//! a compacted batch, and what a walk from key to key finds. The functions do nothing: they are
//! called, or their clauses cited, for what they promise in every lattice.
ghost use Rattle.std.specs.Prelude.{◌≡◌, ◌≢◌, ◌≤◌, ℕ, List, [], ℤ, IsTrue, length, take, drop, slice_range};
ghost use Rattle.std.specs.List.{Contains, filter};
ghost use Rattle.lattice.specs.Representatives.{Indistinguishable};
ghost use Rattle.update.specs.Bags.{Alike};
ghost use Rattle.update.specs.Updates.{as_of, total_at};
ghost use Rattle.update.specs.declared.change.Update.{Update};
ghost use Rattle.batch.specs.Batches.{IsSealed, begins_with, AllBefore, NoneBefore, AllAfter, NoneAfter};
ghost use Rattle.batch.specs.Compaction.{are_compacted};

use lattice::Lattice;

/// A sealed list is determined by the total of each row at each time, and also by what it sums to
/// at every time. So the totals that a seal or a merge preserves say which list it gives.
pub fn sealed_lists_are_determined<T: Lattice>()
    ensures totals { (us vs : List (Update T)) → IsSealed T.cmp us → IsSealed T.cmp vs
        → ((row : List ℤ) (t : T) → total_at T.times row t us ≡ total_at T.times row t vs)
        → us ≡ vs }
    ensures sums { (us vs : List (Update T)) → IsSealed T.cmp us → IsSealed T.cmp vs
        → ((t : T) → Alike (as_of T.times t us) (as_of T.times t vs)) → us ≡ vs }
{}

/// As of a frontier that is not empty, no two updates of one row are left in a compacted batch that
/// a read beyond the frontier cannot tell apart. Every batch is compacted as of its own since.
pub fn compacted_rows_are_apart<T: Lattice>()
    ensures { (F : List T) (us : List (Update T)) (u v : Update T) → F ≢ []
        → IsSealed T.cmp us → IsTrue (are_compacted T.times F us)
        → Contains us u → Contains us v → u.row ≡ v.row
        → Indistinguishable T.times F u.time v.time → u ≡ v }
{}

/// What `seek` and then `seek_past` find from a place on are exactly the rows of the key that are
/// there. If all rows in front of that place come before the key, they are all rows of the key that
/// the list has.
pub fn seeks_find_the_rows_of_a_key<T: Lattice>()
    ensures found { (us : List (Update T)) (key : List ℤ) (from start end : ℕ)
        → from ≤ start → start ≤ end → end ≤ length us
        → AllBefore key (slice_range us from start) → NoneBefore key (drop start us)
        → NoneAfter key (slice_range us start end) → AllAfter key (drop end us)
        → slice_range us start end ≡ filter (begins_with key) (drop from us) }
    ensures all { (us : List (Update T)) (key : List ℤ) (from : ℕ)
        → AllBefore key (take from us)
        → filter (begins_with key) (drop from us) ≡ filter (begins_with key) us }
{}
