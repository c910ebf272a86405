//! Why a list can stand for a set, and the least of some times for all of them. The functions do
//! nothing: they are called, or their clauses cited, for what they promise in every lattice.
ghost use Rattle.std.specs.Prelude.{◌≡◌, List, IsTrue};
ghost use Rattle.lattice.specs.Frontiers.{is_beyond};
ghost use Rattle.antichain.specs.Antichains.{SameElements, IsFrontier, is_antichain, least};

use lattice::Lattice;

/// A frontier, as a contract sees it, is determined by its elements, and also by the times that are
/// beyond it.
pub fn frontiers_are_determined<T: Lattice>()
    ensures elements { (F G : List T) → IsFrontier T.times T.cmp F → IsFrontier T.times T.cmp G
        → SameElements F G → F ≡ G }
    ensures beyond { (F G : List T) → IsFrontier T.times T.cmp F → IsFrontier T.times T.cmp G
        → ((t : T) → is_beyond T.times F t ≡ is_beyond T.times G t) → F ≡ G }
{}

/// The least of some times stand for all of them: the same times are beyond them. And they are the
/// only antichain for which this is so.
pub fn least_elements_stand_for_all<T: Lattice>()
    ensures beyond { (times : List T) (t : T)
        → is_beyond T.times (least T.times times) t ≡ is_beyond T.times times t }
    ensures one { (F times : List T) → IsTrue (is_antichain T.times F)
        → ((t : T) → is_beyond T.times F t ≡ is_beyond T.times times t)
        → SameElements F (least T.times times) }
{}
