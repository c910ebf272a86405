//! Reductions: each key is answered at each joined time of its changes, once a frontier has passed
//! it; a late change corrects what was given; and a key that nothing happens to is not read.
//!
//! A reduction asks something of its caller. Here a call is made only after it was tested, so that
//! a test need not be proved to keep it.
ghost use Rattle.std.specs.Prelude.{◌≡◌, ◌<◌, ◌≤◌, IsTrue, IsSomeAnd, length, nat_le, slice_get};
ghost use Rattle.std.specs.Bool.{OnTrue};
ghost use Rattle.reduce.specs.Duties.{are_wide};

use antichain::all_beyond;
use batch::{Batch, BatchReader};
use batch_trials::{insert, sealed};
use lattice::Bitime;
use plan::Kind;
use reduce::ReduceState;
use row::Row;
use std::alloc::Global;
use std::process::Abort;
use std::test::Fail;
use trace::{BatchList, Trace};
use trials::sketches::{Change, at, list};
use update::{Refusal, Update, consolidate};

// A reduction by the first column, of some kind.
pub(crate) type Reduced = ReduceState<Bitime, Kind>;

// Whether row `i` of a batch has the columns of the key.
fn is_wide<B: BatchReader>(key: usize, batch: &B, i: usize) -> bool
    requires { i < length (B.content batch.now) }
    ensures { IsSomeAnd (slice_get (B.content batch.now) i)
        (λ u. result ≡ nat_le key (length u.row)) }
{
    key <= batch.row(i).width()
}

// Whether each row of a batch has the columns of the key.
fn all_wide<B: BatchReader>(key: usize, batch: &B) -> bool
    ensures { OnTrue result (IsTrue (are_wide key (B.content batch.now))) }
{
    for i in 0..batch.len() {
        if !is_wide(key, batch, i) {
            return false;
        }
    }
    true
}

// Takes a batch. `Stray` if some row of it has no key.
pub(crate) fn take(
    state: &mut Reduced,
    alloc: Global,
    batch: &Batch<Bitime>,
) -> Result<(), Refusal> {
    if !all_wide(state.key(), batch) {
        return Err(Refusal::Stray);
    }
    state.take(alloc, batch)
}

// Gives what the frontier has passed. `Stray` if some pending time can no longer be read.
fn ready(
    state: &mut Reduced,
    alloc: Global,
    frontier: &[Bitime],
    trace: &BatchList<Bitime>,
) -> Result<Vec<Update<Bitime>>, Refusal> {
    let held = state.held(alloc)?;
    if !all_beyond(trace.since(), held.elements()) {
        return Err(Refusal::Stray);
    }
    state.ready(alloc, frontier, trace)
}

// A reduction, and the trace of what it has taken.
#[derive(Drop)]
pub(crate) struct Reduction {
    pub(crate) state: Reduced,
    pub(crate) trace: BatchList<Bitime>,
}

impl Reduction {
    pub(crate) fn new(alloc: Global, kind: Kind) -> Result<Reduction, Refusal> {
        Ok(Reduction {
            trace: BatchList::new(alloc, 0, 0)?,
            state: ReduceState::new(alloc, 1, kind),
        })
    }

    // Takes a batch of these updates, between two frontiers of one time each.
    pub(crate) fn take(
        &mut self,
        alloc: Global,
        lower: (u64, u64),
        upper: (u64, u64),
        updates: &[Update<Bitime>],
    ) -> Result<(), Refusal> {
        let batch = sealed(alloc, lower, upper, updates)?;
        take(&mut self.state, alloc, &batch)?;
        insert(&mut self.trace, batch)
    }

    pub(crate) fn ready(
        &mut self,
        alloc: Global,
        frontier: &[Bitime],
    ) -> Result<Vec<Update<Bitime>>, Refusal> {
        ready(&mut self.state, alloc, frontier, &self.trace)
    }
}

// A reduction that has taken one batch of these changes, from (0, 0) to (16, 16).
pub(crate) fn taken(alloc: Global, kind: Kind, changes: &[Change]) -> Result<Reduction, Refusal> {
    let mut reduction = Reduction::new(alloc, kind)?;
    reduction.take(alloc, (0, 0), (16, 16), &list(alloc, changes)?)?;
    Ok(reduction)
}

// Checks what is ready as of this frontier. It comes in no order that is promised, so it is
// consolidated first.
pub(crate) fn assert_ready(
    rt: &impl Abort,
    alloc: Global,
    reduction: &mut Reduction,
    frontier: &[Bitime],
    want: &[Change],
) -> Result<(), Refusal> {
    let out = consolidate(reduction.ready(alloc, frontier)?)?;
    assert!(rt; out.as_slice() == list(alloc, want)?.as_slice());
    Ok(())
}

// Checks all that a reduction gives for one batch of these changes.
fn assert_reduces(
    rt: &impl Abort,
    alloc: Global,
    kind: Kind,
    changes: &[Change],
    want: &[Change],
) -> Result<(), Refusal> {
    let mut reduction = taken(alloc, kind, changes)?;
    assert_ready(rt, alloc, &mut reduction, &[], want)
}

// No two of the three changes are comparable.
const THREE: [Change; 3] = [((0, 4), &[7], 1), ((2, 2), &[7], 1), ((4, 0), &[7], 1)];

// Each two changes meet at a join, and all three at (4, 4), where nothing changes. Their own times
// are the least that are pending.
#[test]
fn three_changes_under_distinct(rt: HostRuntime) -> Result<(), Fail> {
    let mut reduction = taken(rt.alloc(), Kind::Distinct, &THREE)?;
    let least = [at((0, 4)), at((2, 2)), at((4, 0))];
    assert!(rt; reduction.state.held(rt.alloc())?.elements() == least.as_slice());
    let want: &[Change] = &[
        ((0, 4), &[7], 1),
        ((2, 2), &[7], 1),
        ((2, 4), &[7], -1),
        ((4, 0), &[7], 1),
        ((4, 2), &[7], -1),
    ];
    assert_ready(&rt, rt.alloc(), &mut reduction, &[], want)?;
    Ok(())
}

// At each time the count so far is given, and the count before is taken back. At (4, 4) all three
// are seen.
#[test]
fn three_changes_under_count(rt: HostRuntime) -> Result<(), Fail> {
    let want: &[Change] = &[
        ((0, 4), &[7, 1], 1),
        ((2, 2), &[7, 1], 1),
        ((2, 4), &[7, 1], -2),
        ((2, 4), &[7, 2], 1),
        ((4, 0), &[7, 1], 1),
        ((4, 2), &[7, 1], -2),
        ((4, 2), &[7, 2], 1),
        ((4, 4), &[7, 1], 1),
        ((4, 4), &[7, 2], -2),
        ((4, 4), &[7, 3], 1),
    ];
    assert_reduces(&rt, rt.alloc(), Kind::Count, &THREE, want)?;
    Ok(())
}

// At (1, 9) the first two changes add up to more than 2^63 - 1, and the third takes that from them
// again. A sum that goes through the changes in their order must not be refused.
#[test]
fn a_sum_that_is_too_large_on_the_way_is_no_overflow(rt: HostRuntime) -> Result<(), Fail> {
    let changes: &[Change] = &[
        ((0, 9), &[7, 500], i64::MAX),
        ((1, 1), &[7, 500], 5),
        ((1, 2), &[7, 500], -5),
        ((2, 0), &[7, 90], 1),
    ];
    let want: &[Change] = &[
        ((0, 9), &[7, 500], 1),
        ((1, 1), &[7, 500], 1),
        ((1, 2), &[7, 500], -1),
        ((2, 0), &[7, 90], 1),
    ];
    assert_reduces(&rt, rt.alloc(), Kind::Distinct, changes, want)?;
    Ok(())
}

// The join of both times is answered only once the frontier has passed it.
#[test]
fn a_join_waits_for_the_frontier(rt: HostRuntime) -> Result<(), Fail> {
    let changes: &[Change] = &[((0, 3), &[7], 1), ((3, 0), &[7], 1)];
    let mut reduction = taken(rt.alloc(), Kind::Distinct, changes)?;
    let first: &[Change] = &[((0, 3), &[7], 1), ((3, 0), &[7], 1)];
    assert_ready(&rt, rt.alloc(), &mut reduction, &[at((3, 3))], first)?;
    let left = [at((3, 3))];
    assert!(rt; reduction.state.held(rt.alloc())?.elements() == left.as_slice());
    assert_ready(&rt, rt.alloc(), &mut reduction, &[], &[((3, 3), &[7], -1)])?;
    assert!(rt; reduction.state.waiting().is_empty());
    Ok(())
}

// Rows of one key are counted together, whatever their other columns are.
#[test]
fn counts_meet_at_the_join(rt: HostRuntime) -> Result<(), Fail> {
    let changes: &[Change] = &[((10, 1), &[1, 8], 1), ((5, 2), &[1, 9], 1)];
    let want: &[Change] = &[
        ((5, 2), &[1, 1], 1),
        ((10, 1), &[1, 1], 1),
        ((10, 2), &[1, 1], -2),
        ((10, 2), &[1, 2], 1),
    ];
    assert_reduces(&rt, rt.alloc(), Kind::Count, changes, want)?;
    Ok(())
}

// A smaller row comes and goes.
#[test]
fn the_least_row_comes_and_goes(rt: HostRuntime) -> Result<(), Fail> {
    let changes: &[Change] = &[
        ((0, 0), &[1, 5], 1),
        ((0, 1), &[1, 3], 1),
        ((0, 2), &[1, 3], -1),
    ];
    let want: &[Change] = &[
        ((0, 0), &[1, 5], 1),
        ((0, 1), &[1, 3], 1),
        ((0, 1), &[1, 5], -1),
        ((0, 2), &[1, 3], -1),
        ((0, 2), &[1, 5], 1),
    ];
    assert_reduces(&rt, rt.alloc(), Kind::Min, changes, want)?;
    Ok(())
}

// A row whose count is below 0 is not the greatest one.
#[test]
fn the_greatest_row_is_one_that_is_there(rt: HostRuntime) -> Result<(), Fail> {
    let changes: &[Change] = &[
        ((0, 0), &[1, 5], 1),
        ((0, 0), &[1, 9], -1),
        ((0, 1), &[1, 3], 1),
        ((0, 2), &[1, 9], 2),
    ];
    let want: &[Change] = &[
        ((0, 0), &[1, 5], 1),
        ((0, 2), &[1, 5], -1),
        ((0, 2), &[1, 9], 1),
    ];
    assert_reduces(&rt, rt.alloc(), Kind::Max, changes, want)?;
    Ok(())
}

// A total below 0 is counted, and a total of 0 is no row.
#[test]
fn a_total_of_nothing_gives_nothing(rt: HostRuntime) -> Result<(), Fail> {
    let changes: &[Change] = &[((0, 0), &[1, 5], -3), ((0, 1), &[1, 6], 3)];
    let want: &[Change] = &[((0, 0), &[1, -3], 1), ((0, 1), &[1, -3], -1)];
    assert_reduces(&rt, rt.alloc(), Kind::Count, changes, want)?;
    let owed: &[Change] = &[((0, 0), &[7], -1), ((0, 1), &[7], 2), ((0, 2), &[7], -1)];
    let there: &[Change] = &[((0, 1), &[7], 1), ((0, 2), &[7], -1)];
    assert_reduces(&rt, rt.alloc(), Kind::Distinct, owed, there)?;
    Ok(())
}

// The second change lies behind a day that was settled: it is given at its own time, and at the
// join with that day.
#[test]
fn a_correction_behind_a_settled_day(rt: HostRuntime) -> Result<(), Fail> {
    let mut reduction = Reduction::new(rt.alloc(), Kind::Count)?;
    let day = list(rt.alloc(), &[((3, 0), &[7, 500], 1)])?;
    reduction.take(rt.alloc(), (0, 0), (0, 1), &day)?;
    assert_ready(
        &rt,
        rt.alloc(),
        &mut reduction,
        &[at((0, 1))],
        &[((3, 0), &[7, 1], 1)],
    )?;
    let late = list(rt.alloc(), &[((1, 1), &[7, 90], 1)])?;
    reduction.take(rt.alloc(), (0, 1), (0, 2), &late)?;
    let want: &[Change] = &[
        ((1, 1), &[7, 1], 1),
        ((3, 1), &[7, 1], -2),
        ((3, 1), &[7, 2], 1),
    ];
    assert_ready(&rt, rt.alloc(), &mut reduction, &[at((0, 2))], want)?;
    assert_ready(&rt, rt.alloc(), &mut reduction, &[at((0, 2))], &[])?;
    Ok(())
}

// As of (5, 5) three settled changes fall on one time, and all that was given of them is one row.
// Later changes are answered as if nothing had been folded: each takes the count of three back, and
// the join of both takes what they had given.
#[test]
fn a_folded_past_is_answered_alike(rt: HostRuntime) -> Result<(), Fail> {
    let mut reduction = Reduction::new(rt.alloc(), Kind::Count)?;
    reduction.take(rt.alloc(), (0, 0), (5, 5), &list(rt.alloc(), &THREE)?)?;
    assert_eq!(rt; reduction.ready(rt.alloc(), &[at((5, 5))])?.len(), 10);
    reduction.state.compact(rt.alloc(), &[at((5, 5))])?;
    assert!(rt; reduction.state.waiting().is_empty());
    let later = list(rt.alloc(), &[((5, 7), &[7], 1), ((7, 5), &[7], 1)])?;
    reduction.take(rt.alloc(), (5, 5), (16, 16), &later)?;
    let least = [at((5, 7)), at((7, 5))];
    assert!(rt; reduction.state.held(rt.alloc())?.elements() == least.as_slice());
    let want: &[Change] = &[
        ((5, 7), &[7, 3], -1),
        ((5, 7), &[7, 4], 1),
        ((7, 5), &[7, 3], -1),
        ((7, 5), &[7, 4], 1),
        ((7, 7), &[7, 3], 1),
        ((7, 7), &[7, 4], -2),
        ((7, 7), &[7, 5], 1),
    ];
    assert_ready(&rt, rt.alloc(), &mut reduction, &[], want)?;
    Ok(())
}

// As of a since of two times, a settled change is moved to (1, 2), the meet of its joins with both:
// no further, since a change at (1, 3) is to be joined with it there, and one at (3, 1) at (3, 2).
#[test]
fn a_since_of_two_times_moves_to_representatives(rt: HostRuntime) -> Result<(), Fail> {
    let mut reduction = Reduction::new(rt.alloc(), Kind::Count)?;
    let first = list(rt.alloc(), &[((0, 2), &[7], 1)])?;
    reduction.take(rt.alloc(), (0, 0), (1, 1), &first)?;
    assert_ready(
        &rt,
        rt.alloc(),
        &mut reduction,
        &[at((1, 1))],
        &[((0, 2), &[7, 1], 1)],
    )?;
    reduction
        .state
        .compact(rt.alloc(), &[at((1, 3)), at((3, 1))])?;
    let later = list(rt.alloc(), &[((1, 3), &[7], 1), ((3, 1), &[7], 1)])?;
    reduction.take(rt.alloc(), (1, 1), (16, 16), &later)?;
    let want: &[Change] = &[
        ((1, 3), &[7, 1], -1),
        ((1, 3), &[7, 2], 1),
        ((3, 1), &[7, 1], 1),
        ((3, 2), &[7, 1], -2),
        ((3, 2), &[7, 2], 1),
        ((3, 3), &[7, 1], 1),
        ((3, 3), &[7, 2], -2),
        ((3, 3), &[7, 3], 1),
    ];
    assert_ready(&rt, rt.alloc(), &mut reduction, &[], want)?;
    Ok(())
}

// A thousand keys with one row each at (0, 0).
fn thousand(alloc: Global) -> Result<Vec<Update<Bitime>>, Refusal> {
    let mut updates = Vec::new(alloc);
    for key in 0..1000 {
        updates.push(Update {
            time: at((0, 0)),
            row: Row::new(alloc, &[key])?,
            diff: 1,
        })?;
    }
    Ok(updates)
}

// A change of one key among a thousand reads two updates at most, and where nothing is due none.
#[test]
fn other_keys_are_not_read(rt: HostRuntime) -> Result<(), Fail> {
    let mut reduction = Reduction::new(rt.alloc(), Kind::Count)?;
    reduction.take(rt.alloc(), (0, 0), (1, 0), &thousand(rt.alloc())?)?;
    assert_eq!(rt; reduction.ready(rt.alloc(), &[at((1, 0))])?.len(), 1000);
    let before = reduction.state.looked();
    assert_ready(&rt, rt.alloc(), &mut reduction, &[at((1, 0))], &[])?;
    assert_eq!(rt; reduction.state.looked(), before);
    let one = list(rt.alloc(), &[((1, 0), &[7], 1)])?;
    reduction.take(rt.alloc(), (1, 0), (2, 0), &one)?;
    let want: &[Change] = &[((1, 0), &[7, 1], -1), ((1, 0), &[7, 2], 1)];
    assert_ready(&rt, rt.alloc(), &mut reduction, &[at((2, 0))], want)?;
    assert!(rt; reduction.state.looked() <= before.saturating_add(2));
    Ok(())
}
