//! What the definitions promise about the changes of a view. The functions do nothing: they are
//! called, or their clauses cited, for what they promise in every lattice.
ghost use Rattle.std.specs.Prelude.{◌≡◌, ℕ, List, IsTrue};
ghost use Rattle.std.specs.List.{filter};
ghost use Rattle.lattice.specs.Frontiers.{all_beyond};
ghost use Rattle.update.specs.declared.change.Update.{Update};
ghost use Rattle.plan.specs.Changes.{AreDifferences, has_passed};
ghost use Rattle.plan.specs.Bounds.{IsBound};
ghost use Rattle.plan.specs.declared.node.Node.{Node};

use lattice::Lattice;

/// The differences of a node are one list: two lists that are its differences, for the same changes
/// and frontier, are equal. As the frontier moves on, the differences at times that it had already
/// passed stay as they were.
pub fn differences_are_one_list<T: Lattice>()
    ensures one { (p : List Node) (changes : ℕ
        → List (Update T)) (frontier : List T) (n : ℕ) (us vs : List (Update T))
        → AreDifferences T.times T.cmp p changes frontier n us
        → AreDifferences T.times T.cmp p changes frontier n vs → us ≡ vs }
    ensures goes_on { (p : List Node) (changes : ℕ
        → List (Update T)) (earlier later : List T) (n : ℕ) (us vs : List (Update T))
        → IsTrue (all_beyond T.times earlier later)
        → AreDifferences T.times T.cmp p changes earlier n us
        → AreDifferences T.times T.cmp p changes later n vs
        → us ≡ filter (λ u. has_passed T.times earlier u.time) vs }
{}

/// A node has only one bound: it depends on the plan and the changes alone.
pub fn bounds_are_determined<T: Lattice>()
    ensures { (p : List Node) (changes : ℕ → List (Update T)) (n v w : ℕ)
        → IsBound T.times T.cmp p changes n v → IsBound T.times T.cmp p changes n w → v ≡ w }
{}
