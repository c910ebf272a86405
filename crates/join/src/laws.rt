//! What follows from the definition of pairs alone. The functions do nothing: they are called, or
//! their clauses cited, for what they promise in every lattice.
ghost use Rattle.std.specs.Prelude.{◌≡◌, ◌≤◌, ◌*◌, ◌+ℤ◌, ℕ, ℤ, Bool, List, ◌++◌, IsTrue};
ghost use Rattle.std.specs.List.Sorted.{IsPermutation};
ghost use Rattle.update.specs.Bags.{Alike};
ghost use Rattle.update.specs.Updates.{as_of, size, total_where};
ghost use Rattle.update.specs.declared.change.Update.{Update};
ghost use Rattle.plan.specs.Operators.{join_output, operator_output};
ghost use Rattle.plan.specs.declared.node.Node.TheVariants.{Join};
ghost use Rattle.trace.specs.Readings.{SameBeyond};
ghost use Rattle.batch.specs.Intervals.{all_times_beyond};
ghost use Rattle.join.specs.Pairs.{pairs};

use lattice::Lattice;

/// At every time, the pairs of two lists sum to the join of what the lists sum to, entry by entry.
/// The size of the pairs is at most the product of both sizes. Costs nothing.
pub fn pairs_are_the_join<T: Lattice>()
    ensures sums { (k : ℕ) (us vs : List (Update T)) (t : T)
        → as_of T.times t (pairs T.times k us vs)
        ≡ join_output k (as_of T.times t us) (as_of T.times t vs) }
    ensures size { (k : ℕ) (us vs : List (Update T))
        → size (pairs T.times k us vs) ≤ size us * size vs }
{}

/// Pairs may be formed piece by piece. Every total of the pairs of `us ++ ws` and `vs ++ xs` is the
/// sum of the totals of the four parts, whatever test of rows and times is totalled. The order of
/// either side changes no total. Costs nothing.
pub fn pieces_pair_up<T: Lattice>()
    ensures pieces { (p : List ℤ → T → Bool) (k : ℕ) (us ws vs xs : List (Update T))
        → total_where p (pairs T.times k (us ++ ws) (vs ++ xs))
        ≡ (total_where p (pairs T.times k us vs) +ℤ total_where p (pairs T.times k us xs))
        +ℤ (total_where p (pairs T.times k ws vs) +ℤ total_where p (pairs T.times k ws xs)) }
    ensures left_order { (p : List ℤ → T → Bool) (k : ℕ) (us ws vs : List (Update T))
        → IsPermutation us ws
        → total_where p (pairs T.times k us vs) ≡ total_where p (pairs T.times k ws vs) }
    ensures right_order { (p : List ℤ → T → Bool) (k : ℕ) (us vs xs : List (Update T))
        → IsPermutation vs xs
        → total_where p (pairs T.times k us vs) ≡ total_where p (pairs T.times k us xs) }
{}

/// A new left piece `ws` and a new right piece `xs` are paired once. If the first of them is paired
/// with what the other side had, and the second with all that the other side has by then, then no
/// pair is missed and none is formed twice, in either order. Costs nothing.
pub fn both_sides_once<T: Lattice>()
    ensures left_first { (p : List ℤ → T → Bool) (k : ℕ) (us ws vs xs : List (Update T))
        → total_where p (pairs T.times k us vs
        ++ (pairs T.times k ws vs ++ pairs T.times k (us ++ ws) xs))
        ≡ total_where p (pairs T.times k (us ++ ws) (vs ++ xs)) }
    ensures right_first { (p : List ℤ → T → Bool) (k : ℕ) (us ws vs xs : List (Update T))
        → total_where p (pairs T.times k us vs
        ++ (pairs T.times k us xs ++ pairs T.times k ws (vs ++ xs)))
        ≡ total_where p (pairs T.times k (us ++ ws) (vs ++ xs)) }
{}

/// If all times of one side are beyond a frontier, then the other side may be read as it was
/// compacted: updates that sum to the same bags beyond the frontier have pairs that sum to the same
/// bags at every time. Costs nothing.
pub fn compacted_sides_do_not_matter<T: Lattice>()
    ensures right { (k : ℕ) (F : List T) (us vs ws : List (Update T))
        → IsTrue (all_times_beyond T.times F us) → SameBeyond T.times F vs ws → (t : T)
        → Alike (as_of T.times t (pairs T.times k us vs))
        (as_of T.times t (pairs T.times k us ws)) }
    ensures left { (k : ℕ) (F : List T) (us ws vs : List (Update T))
        → IsTrue (all_times_beyond T.times F vs) → SameBeyond T.times F us ws → (t : T)
        → Alike (as_of T.times t (pairs T.times k us vs))
        (as_of T.times t (pairs T.times k ws vs)) }
{}

/// If the sum of what was emitted is the join of all that was received, then this still holds after
/// one more piece at either port, once its pairs with all that the other port has received are
/// emitted. `after` is what the ports have received with the piece. Costs nothing.
pub fn goes_on<T: Lattice>()
    ensures left { (k l r : ℕ) (received after : ℕ → List (Update T))
        → (us emitted : List (Update T)) → after 0 ≡ us ++ received 0 → after 1 ≡ received 1
        → (t : T)
        → Alike (as_of T.times t emitted)
        (operator_output k (Join l r) (λ p. as_of T.times t (received p)))
        → Alike (as_of T.times t (pairs T.times k us (received 1) ++ emitted))
        (operator_output k (Join l r) (λ p. as_of T.times t (after p))) }
    ensures right { (k l r : ℕ) (received after : ℕ → List (Update T))
        → (vs emitted : List (Update T)) → after 0 ≡ received 0 → after 1 ≡ vs ++ received 1
        → (t : T)
        → Alike (as_of T.times t emitted)
        (operator_output k (Join l r) (λ p. as_of T.times t (received p)))
        → Alike (as_of T.times t (pairs T.times k (received 0) vs ++ emitted))
        (operator_output k (Join l r) (λ p. as_of T.times t (after p))) }
{}
