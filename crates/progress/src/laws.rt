//! What follows of counts and frontiers. The functions do nothing: they are called, or their
//! clauses cited, for what they promise in every lattice.
ghost use Rattle.std.specs.Prelude.{◌≡◌, List, ℕ, ◌∷◌, ◌≤◌, IsTrue, length, Contains};
ghost use Rattle.std.specs.List.{list_all};
ghost use Rattle.lattice.specs.Frontiers.{is_beyond};
ghost use Rattle.antichain.specs.Antichains.{SameElements};
ghost use Rattle.plan.specs.Ancestors.{numbers_below};
ghost use Rattle.plan.specs.Changes.{has_passed};
ghost use Rattle.plan.specs.Nodes.{sources, node_at};
ghost use Rattle.plan.specs.Rules.{IsPlan};
ghost use Rattle.plan.specs.declared.node.Node.{Node};
ghost use Rattle.progress.specs.declared.counted.Counted.{Counted};
ghost use Rattle.progress.specs.Tallies.{SameCounts, AreInPlace, is_upstream, is_input_upstream, is_port_upstream, frontier, input_frontier, port_frontier, StaysPassed, IsDowngrade};

use lattice::Lattice;

/// Frontiers depend on how often each item is counted, and on nothing else.
pub fn counts_determine_frontiers<T: Lattice>()
    ensures frontier { (nodes : List Node) (xs ys : List (Counted T)) (n : ℕ) → SameCounts xs ys
        → SameElements (frontier T.times nodes xs n) (frontier T.times nodes ys n) }
    ensures input { (nodes : List Node) (xs ys : List (Counted T)) (n : ℕ) → SameCounts xs ys
        → SameElements (input_frontier T.times nodes xs n) (input_frontier T.times nodes ys n) }
    ensures port { (nodes : List Node) (xs ys : List (Counted T)) (n p : ℕ) → SameCounts xs ys
        → SameElements (port_frontier T.times nodes xs n p) (port_frontier T.times nodes ys n p) }
{}

/// Lists that count alike have the same items, also without an item that both have in front. So
/// what was added can be removed, and what was held can be given back.
pub fn counts_tell_what_is_there<T: Lattice>()
    ensures same { (xs ys : List (Counted T)) (x : Counted T) → SameCounts xs ys → Contains xs x
        → Contains ys x }
    ensures cancelled { (xs ys : List (Counted T)) (x : Counted T) → SameCounts (x ∷ xs) (x ∷ ys)
        → SameCounts xs ys }
    ensures downgraded { (old new : List (Counted T)) (x : Counted T) (later : T)
        → IsDowngrade T.times old new x later → Contains new (record x { time = later }) }
{}

/// A frontier has passed no time that is at or after one that counts for it. So what is outstanding
/// at a node or above it keeps back the frontier of the node.
pub fn what_is_counted_is_not_passed<T: Lattice>()
    ensures frontier { (nodes : List Node) (xs : List (Counted T)) (n : ℕ) (x : Counted T) (t : T)
        → Contains xs x → IsTrue (is_upstream nodes n x.place) → IsTrue (T.times.below x.time t)
        → IsTrue (is_beyond T.times (frontier T.times nodes xs n) t) }
    ensures input { (nodes : List Node) (xs : List (Counted T)) (n : ℕ) (x : Counted T) (t : T)
        → Contains xs x → IsTrue (is_input_upstream nodes n x.place) → IsTrue (T.times.below x.time t)
        → IsTrue (is_beyond T.times (input_frontier T.times nodes xs n) t) }
    ensures port { (nodes : List Node) (xs : List (Counted T)) (n p : ℕ) (x : Counted T) (t : T)
        → Contains xs x → IsTrue (is_port_upstream nodes n p x.place) → IsTrue (T.times.below x.time t)
        → IsTrue (is_beyond T.times (port_frontier T.times nodes xs n p) t) }
{}

/// One item more, at a time that is beyond a frontier, leaves exactly the same times beyond that
/// frontier. So nothing that is counted later can bring back a time that was passed, as long as it
/// comes at a time that was not.
pub fn what_is_beyond_moves_nothing_back<T: Lattice>()
    ensures frontier { (nodes : List Node) (xs : List (Counted T)) (n : ℕ) (x : Counted T) (t : T)
        → IsTrue (is_beyond T.times (frontier T.times nodes xs n) x.time)
        → is_beyond T.times (frontier T.times nodes (x ∷ xs) n) t
        ≡ is_beyond T.times (frontier T.times nodes xs n) t }
    ensures input { (nodes : List Node) (xs : List (Counted T)) (n : ℕ) (x : Counted T) (t : T)
        → IsTrue (is_beyond T.times (input_frontier T.times nodes xs n) x.time)
        → is_beyond T.times (input_frontier T.times nodes (x ∷ xs) n) t
        ≡ is_beyond T.times (input_frontier T.times nodes xs n) t }
    ensures port { (nodes : List Node) (xs : List (Counted T)) (n p : ℕ) (x : Counted T) (t : T)
        → IsTrue (is_beyond T.times (port_frontier T.times nodes xs n p) x.time)
        → is_beyond T.times (port_frontier T.times nodes (x ∷ xs) n p) t
        ≡ is_beyond T.times (port_frontier T.times nodes xs n p) t }
{}

/// A downgrade leaves passed what was passed, at every node.
pub fn downgrades_move_nothing_back<T: Lattice>()
    ensures frontier { (nodes : List Node) (old new : List (Counted T)) (n : ℕ) (x : Counted T)
        (later : T) → IsDowngrade T.times old new x later
        → StaysPassed T.times (frontier T.times nodes old n) (frontier T.times nodes new n) }
    ensures input { (nodes : List Node) (old new : List (Counted T)) (n : ℕ) (x : Counted T)
        (later : T) → IsDowngrade T.times old new x later → StaysPassed T.times
        (input_frontier T.times nodes old n) (input_frontier T.times nodes new n) }
    ensures port { (nodes : List Node) (old new : List (Counted T)) (n p : ℕ) (x : Counted T)
        (later : T) → IsDowngrade T.times old new x later → StaysPassed T.times
        (port_frontier T.times nodes old n p) (port_frontier T.times nodes new n p) }
{}

/// If a node reads others, then its input frontier has passed a time exactly if the frontiers of
/// all its ports have. Updates can come to it in no other way.
pub fn ports_make_the_input_frontier<T: Lattice>()
    ensures { (nodes : List Node) (xs : List (Counted T)) (n : ℕ) (t : T) → IsPlan nodes
        → AreInPlace nodes xs → 1 ≤ length (sources (node_at nodes n))
        → has_passed T.times (input_frontier T.times nodes xs n) t
        ≡ list_all (λ port. has_passed T.times (port_frontier T.times nodes xs n port) t)
        (numbers_below (length (sources (node_at nodes n)))) }
{}
