//! Why a consolidated list can stand for all lists with its sums, and a list of entries for a bag.
//! The functions do nothing: they are called, or their clauses cited, for what they promise in
//! every lattice.
ghost use Rattle.std.specs.Prelude.{◌≡◌, ◌≤◌, Bool, List, ℤ, IsTrue};
ghost use Rattle.std.specs.List.{filter};
ghost use Rattle.update.specs.Bags.{Entry, Alike, IsBag};
ghost use Rattle.update.specs.Updates.{as_of, total_at, IsConsolidated, size};
ghost use Rattle.update.specs.declared.change.Update.{Update};

use lattice::Lattice;

/// Take a set of times that contains, with each time, all times at or before it; `among` is the
/// test of the set. If two lists sum to alike bags at each time of the set, then each row has the
/// same total in both at each of these times. If the lists are also consolidated, then they have
/// the same updates at these times.
pub fn sums_determine_a_list<T: Lattice>()
    ensures totals { (among : T → Bool) (us vs : List (Update T))
        → ((s t : T) → IsTrue (T.times.below s t) → IsTrue (among t) → IsTrue (among s))
        → ((t : T) → IsTrue (among t) → Alike (as_of T.times t us) (as_of T.times t vs))
        → (row : List ℤ) (t : T) → IsTrue (among t)
        → total_at T.times row t us ≡ total_at T.times row t vs }
    ensures updates { (among : T → Bool) (us vs : List (Update T))
        → ((s t : T) → IsTrue (T.times.below s t) → IsTrue (among t) → IsTrue (among s))
        → ((t : T) → IsTrue (among t) → Alike (as_of T.times t us) (as_of T.times t vs))
        → IsConsolidated T.cmp us → IsConsolidated T.cmp vs
        → filter (λ u. among u.time) us ≡ filter (λ u. among u.time) vs }
{}

/// Of all lists that sum to alike bags at each time of such a set, a consolidated one has the least
/// size there.
pub fn consolidated_lists_are_least<T: Lattice>()
    ensures { (among : T → Bool) (us vs : List (Update T))
        → ((s t : T) → IsTrue (T.times.below s t) → IsTrue (among t) → IsTrue (among s))
        → ((t : T) → IsTrue (among t) → Alike (as_of T.times t us) (as_of T.times t vs))
        → IsConsolidated T.cmp us
        → size (filter (λ u. among u.time) us) ≤ size (filter (λ u. among u.time) vs) }
{}

/// A bag, as a contract sees it, is determined by the counts of its rows.
pub fn bags_are_determined()
    ensures { (a b : List Entry) → IsBag a → IsBag b → Alike a b → a ≡ b }
{}
