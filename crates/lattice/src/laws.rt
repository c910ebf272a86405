//! Laws that follow from those of the traits and that the layers above use. The functions do
//! nothing: they are called, or their clauses cited, for what they promise in every lattice.
ghost use Rattle.std.specs.Prelude.{◌≡◌, ◌&&◌, List, IsTrue};
ghost use Rattle.lattice.specs.Frontiers.{is_beyond, all_beyond};

use crate::Lattice;

/// Bounds can be tested part by part: a join is at or before a time if and only if both of its
/// parts are, and a time is at or before a meet if and only if it is at or before both parts. So
/// joins may be taken in any order.
pub fn bounds_are_tested_apart<T: Lattice>()
    ensures join_below { (t u s : T) → T.times.below (T.times.joined t u) s ≡ (T.times.below t s && T.times.below u s) }
    ensures below_meet { (t u s : T) → T.times.below s (T.times.met t u) ≡ (T.times.below s t && T.times.below s u) }
    ensures join_commutes { (t u : T) → T.times.joined t u ≡ T.times.joined u t }
    ensures join_associates { (t u v : T) → T.times.joined (T.times.joined t u) v ≡ T.times.joined t (T.times.joined u v) }
    ensures join_same { (t : T) → T.times.joined t t ≡ t }
{}

/// If a time is beyond a frontier, then so is every later time; and a time beyond a later frontier
/// is beyond an earlier one. If every time beyond one frontier is beyond another, then the one
/// frontier is beyond the other. This relation of frontiers is reflexive and transitive.
pub fn later_frontiers_are_beyond<T: Lattice>()
    ensures upward { (F : List T) (t u : T) → IsTrue (is_beyond T.times F t) → IsTrue (T.times.below t u)
        → IsTrue (is_beyond T.times F u) }
    ensures later { (F G : List T) (t : T) → IsTrue (all_beyond T.times F G)
        → IsTrue (is_beyond T.times G t)
        → IsTrue (is_beyond T.times F t) }
    ensures covers { (F G : List T)
        → ((t : T) → IsTrue (is_beyond T.times G t) → IsTrue (is_beyond T.times F t))
        → IsTrue (all_beyond T.times F G) }
    ensures itself { (F : List T) → IsTrue (all_beyond T.times F F) }
    ensures transitive { (F G H : List T) → IsTrue (all_beyond T.times F G)
        → IsTrue (all_beyond T.times G H)
        → IsTrue (all_beyond T.times F H) }
{}
