//! What the definitions say of examples. The theorems of this crate hold of every legal history, so
//! they would still hold if a definition forbade something that an engine has to do: fewer
//! histories would be legal, and no proof would fail. A definition could also find a wrong frontier
//! or bound, and every proof would follow it. So this file states cases that a definition could
//! easily forbid, and numbers that can be found by hand, for times that are pairs. The functions
//! do nothing. If a changed definition makes one of their clauses false, the check fails.
ghost use Rattle.std.specs.Prelude.{◌≡◌, ℕ, true, false, [], ◌∷◌, map, pos, negsuc};
ghost use Rattle.lattice.specs.Pairs.{make_pair};
ghost use Rattle.plan.specs.Rules.{IsPlan};
ghost use Rattle.plan.specs.Bounds.{IsBound, bound_by};
ghost use Rattle.histories.specs.declared.event.Event.TheVariants.{Allow, Give, Take};
ghost use Rattle.histories.specs.Histories.Dataflows.{IsDataflow};
ghost use Rattle.histories.specs.Histories.States.{place, change_to};
ghost use Rattle.histories.specs.Histories.Shares.{home};
ghost use Rattle.histories.specs.Histories.Outstanding.{stamp};
ghost use Rattle.histories.specs.Histories.{IsAllowed, IsLegal, emitted_after, frontier_after, state_after};
ghost use Rattle.histories.specs.Histories.Readings.{IsQuiet, is_from_start};
ghost use Rattle.histories.specs.Histories.Cuts.{cut};
ghost use Rattle.histories.specs.Histories.Witnesses.{seven_comes, seven_goes, bundle_of, given_at_node, counting, listing, copying, changes_of_listing, came_twice, came_at_input, waits_at_count, held_at_count, open_from, HasFrontiers, joining, doubling, linear_row};
ghost use Rattle.histories.specs.Histories.Exchanges.{exchange, sevens_counted, second_bundle, taken_in_order, two_wait, two_wait_at_arrange};
ghost use Rattle.lattice.specs.Bitimes.{bitime_times, bitime_cmp};

/// The examples, by clause:
///
/// - `dataflows`, `plans`: the plans of the examples are plans.
/// - `distinct`: a row came to a distinct at (0, 3) and at (3, 0). The node gives the row at both
///   times, and takes one of the two back at their join (3, 3), a time that the worker never held.
/// - `cut_in_two`: a worker may cut what goes to one place as it likes. Of three updates, the first
///   and the last go in one bundle, and the second in a bundle of its own.
/// - `allow`, `allowed`: a view's since moves forward, from (0, 0) to (4, 4).
/// - `in_flight`, `held`, `gone`: the frontiers at a count and at its view, first while an update
///   at (10, 1) waits for a worker at the count, then while its time is held there, and then after
///   that. The input is open from (0, 2) on.
/// - `quiet`: the board is quiet while a worker holds (10, 3) and changes may still come from (0,
///   2) on.
/// - `stamp`, `stamp_of_one`: the stamp of three updates has the least of their times, and the
///   stamp of two updates at one time has that time once.
/// - `home`: the row (5, -7) goes to worker 2 of 4.
/// - `product`, `doubled`, `linear`: the bounds at a join, of sums that exceed 64 bits, and along
///   linear nodes.
/// - `from_start`: nothing was given up if the since contains the least time, even if it contains
///   other times too.
/// - `given_up`: something was given up if the since is empty, one later time, or two later times.
pub fn definitions_fit_examples()
    ensures dataflows { IsDataflow counting × IsDataflow listing × IsDataflow copying }
    ensures plans { IsPlan joining × IsPlan doubling × IsPlan linear_row }
    ensures distinct { IsAllowed bitime_times listing came_twice
        (Give (given_at_node 2 (seven_comes 0 3 ∷ seven_comes 3 0 ∷ seven_goes 3 3 ∷ [])) []
        (cut bitime_times listing
        (given_at_node 2 (seven_comes 0 3 ∷ seven_comes 3 0 ∷ seven_goes 3 3 ∷ [])))) }
    ensures cut_in_two { IsAllowed bitime_times copying
        (came_at_input (seven_comes 0 3 ∷ seven_comes 3 0 ∷ seven_goes 3 3 ∷ []))
        (Give (given_at_node 0 (seven_comes 0 3 ∷ seven_comes 3 0 ∷ seven_goes 3 3 ∷ [])) []
        (bundle_of (place 1 0 1) (seven_comes 0 3 ∷ seven_goes 3 3 ∷ [])
        ∷ bundle_of (place 1 0 1) (seven_comes 3 0 ∷ []) ∷ [])) }
    ensures allow { IsLegal bitime_times counting
        (Allow 2 3 (make_pair 4 4 ∷ []) ∷ []) }
    ensures allowed { (state_after bitime_times counting
        (Allow 2 3 (make_pair 4 4 ∷ []) ∷ [])).since 3 ≡ make_pair 4 4 ∷ [] }
    ensures in_flight { HasFrontiers waits_at_count (make_pair 10 1 ∷ make_pair 0 2 ∷ [])
        (make_pair 10 1 ∷ make_pair 0 2 ∷ []) }
    ensures held { HasFrontiers (held_at_count 10 1) (make_pair 0 2 ∷ [])
        (make_pair 10 1 ∷ make_pair 0 2 ∷ []) }
    ensures gone { HasFrontiers (open_from (make_pair 0 2)) (make_pair 0 2 ∷ [])
        (make_pair 0 2 ∷ []) }
    ensures quiet { IsQuiet bitime_times counting (held_at_count 10 3) }
    ensures stamp { stamp bitime_times (seven_comes 0 3 ∷ seven_comes 3 3 ∷ seven_comes 3 0 ∷ [])
        ≡ make_pair 0 3 ∷ make_pair 3 0 ∷ [] }
    ensures stamp_of_one { stamp bitime_times (seven_comes 10 1 ∷ seven_goes 10 1 ∷ [])
        ≡ make_pair 10 1 ∷ [] }
    ensures home { home (record counting { workers = 4 })
        (change_to 0 (record (seven_comes 10 1) { row = pos 5 ∷ negsuc 6 ∷ [] })) ≡ place 0 0 2 }
    ensures product { bound_by joining (λ n. 0) (λ input. 2147483647) 5 ≡ 4611686014132420609 }
    ensures doubled { map (bound_by doubling (λ n. 0) (λ input. 1073741824)) (4 ∷ 6 ∷ [])
        ≡ 4611686018427387904 ∷ 9223372036854775808 ∷ [] }
    ensures linear { map (bound_by linear_row (λ n. 0) (λ input. 4)) (0 ∷ 1 ∷ 2 ∷ 3 ∷ 4 ∷ [])
        ≡ 4 ∷ 4 ∷ 4 ∷ 4 ∷ 8 ∷ [] }
    ensures from_start { map (is_from_start bitime_times)
        ((make_pair 0 0 ∷ []) ∷ (make_pair 0 0 ∷ make_pair 3 3 ∷ []) ∷ []) ≡ true ∷ true ∷ [] }
    ensures given_up { map (is_from_start bitime_times)
        ([] ∷ (make_pair 4 4 ∷ []) ∷ (make_pair 0 3 ∷ make_pair 3 0 ∷ []) ∷ [])
        ≡ false ∷ false ∷ false ∷ [] }
{}

/// A reduction's own bound: at a distinct, to which a row came at (0, 3) and at (3, 0), the bound
/// is 3. The row comes out at both times, and one of the two is taken back at (3, 3). So the bound
/// is larger than the two changes, and the view of the distinct has the same bound.
pub fn own_bounds_are_met()
    ensures distinct { IsBound bitime_times bitime_cmp listing.nodes changes_of_listing 2 3 }
    ensures view { IsBound bitime_times bitime_cmp listing.nodes changes_of_listing 3 3 }
{}

/// The bundles of a place are a queue, first in, first out:
///
/// - `in_order`: two bundles wait at an input. A worker takes the first one and then the second.
/// - `overtaken`: it may not take the second one first.
/// - `at_arrange`: at an arrange node it may.
pub fn bundles_wait_in_order()
    ensures in_order { IsLegal bitime_times copying taken_in_order }
    ensures overtaken { (number : ℕ) → IsLegal bitime_times copying
        (Take number second_bundle ∷ two_wait) → ⊥ }
    ensures at_arrange { IsAllowed bitime_times listing two_wait_at_arrange
        (Take 1 (bundle_of (place 1 0 1) (seven_comes 3 0 ∷ []))) }
{}

/// Two workers exchange updates at times that cannot be compared:
///
/// - `legal`: a history in which both workers take and give. Two rows of one key come at (0, 3) and
///   at (3, 0), to two workers. One worker counts both, also as of (3, 3), where both have come.
/// - `captured`: the view captured these counts.
/// - `frontier`: and its frontier is {(4, 4)}.
pub fn two_workers_can_exchange()
    ensures legal { IsLegal bitime_times counting exchange }
    ensures captured { emitted_after bitime_times counting exchange 3
        ≡ sevens_counted }
    ensures frontier { frontier_after bitime_times counting exchange 3
        ≡ make_pair 4 4 ∷ [] }
{}
