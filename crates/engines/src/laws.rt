//! Laws of the definitions. Each law is a function with an empty body. Callers call it, or cite its
//! clauses.
ghost use Rattle.std.specs.Prelude.{◌≡◌, ◌<◌, ℕ, List, length};
ghost use Rattle.std.specs.List.Sorted.{IsStrictlySortedBy};
ghost use Rattle.antichain.specs.Antichains.{SameElements};
ghost use Rattle.update.specs.Bags.{Entry, Alike, IsBag};
ghost use Rattle.update.specs.declared.change.Update.{Update};
ghost use Rattle.plan.specs.Changes.{AreDifferences};
ghost use Rattle.plan.specs.Rules.{IsPlan};
ghost use Rattle.plan.specs.Bounds.{HasLargeBound, IsBound};
ghost use Rattle.plan.specs.declared.node.Node.{Node};
ghost use Rattle.histories.specs.Histories.States.{fed_to};
ghost use Rattle.oracle.specs.Evaluation.{HasLargeAbove, list_of, sums_at};
ghost use Rattle.oracle.specs.Listing.{HasLargeDifference};
ghost use Rattle.engines.specs.Bags.{consolidated_bag};
ghost use Rattle.engines.specs.OracleStates.{IsRegister, Records, Register};
ghost use Rattle.engines.specs.Sessions.{Session, first_session, view_frontier, frontier_at, changes_at};

use lattice::Lattice;

/// If entries are inserted one by one into a list in row order, the result is a bag with the same
/// counts, and it is the only such bag.
pub fn the_bag_of_entries()
    ensures bag { (entries : List Entry) → IsBag (consolidated_bag entries) }
    ensures alike { (entries : List Entry) → Alike (consolidated_bag entries) entries }
    ensures only { (entries bag : List Entry) → IsBag bag → Alike bag entries
        → bag ≡ consolidated_bag entries }
{}

/// The changes of a view are a consolidated list at times that its frontier has passed. At each of
/// these times, the list sums to the query, computed from scratch on the accepted changes. There is
/// no other such list.
pub fn the_changes_of_a_view<T: Lattice>()
    ensures differences { (p : List Node) → IsPlan p → (s : Session T) (view : ℕ) → view < length p
        → AreDifferences T.times T.cmp p (λ input. fed_to input s.fed)
        (view_frontier T.times p s view) view (changes_at T.times p s T.cmp view) }
    ensures only { (p : List Node) → IsPlan p → (s : Session T) (view : ℕ) → view < length p
        → (us : List (Update T))
        → AreDifferences T.times T.cmp p (λ input. fed_to input s.fed)
        (view_frontier T.times p s view) view us → us ≡ changes_at T.times p s T.cmp view }
{}

/// The printed frontier of a view has exactly the elements of its frontier, each once and in order.
pub fn the_frontier_of_a_view<T: Lattice>()
    ensures elements { (p : List Node) (s : Session T) (view : ℕ)
        → SameElements (frontier_at T.times p s T.cmp view) (view_frontier T.times p s view) }
    ensures ascending { (p : List Node) (s : Session T) (view : ℕ)
        → IsStrictlySortedBy T.cmp (frontier_at T.times p s T.cmp view) }
{}

/// If the plain query overflows, then some node has a bound of 2 to the 63 or more. The clause
/// `above` is of the cause that `oracle::evaluate` states, and `differences` of that of
/// `oracle::differences`. `lists` has the changes of each input, in the order of the inputs'
/// numbers. So who keeps the bounds small never meets these refusals.
pub fn large_numbers_have_large_bounds<T: Lattice>()
    ensures above { (p : List Node) → IsPlan p → (lists : List (List (Update T))) (view : ℕ)
        → view < length p → (t : T) → HasLargeAbove p (sums_at T.times p lists t) view
        → HasLargeBound T.times T.cmp p (list_of p lists) }
    ensures differences { (p : List Node) → IsPlan p → (lists : List (List (Update T))) (view : ℕ)
        → view < length p → (frontier : List T)
        → HasLargeDifference T.times p lists frontier view
        → HasLargeBound T.times T.cmp p (list_of p lists) }
{}

/// Every node of a plan has a bound, for any changes that its inputs were fed. So the bound that
/// other laws speak of exists. By `plan::bounds_are_determined` there is only one.
pub fn bounds_exist<T: Lattice>()
    ensures { (p : List Node) → IsPlan p → (changes : ℕ → List (Update T)) → (n : ℕ)
        → (bound : ℕ) × IsBound T.times T.cmp p changes n bound }
{}

/// The oracle engine can stand for a session: for each plan there is a register that stands for the
/// session before the first command.
pub fn the_oracle_engine_can_stand<T: Lattice>()
    ensures { (p : List Node) (least : T) → (r : Register T) × (r.plan ≡ p) × IsRegister r
        × Records r (first_session least p) }
{}
