//! Joins: a pair is at the join of both times and has the product of both diffs, whichever side
//! moves first; each side has a boundary of its own; and a refused call changes nothing.
//!
//! A join asks much of its caller. Here a call is made only after all of it was tested, so that a
//! test need not be proved to keep it.
ghost use Rattle.std.specs.Prelude.{◌≡◌, ◌↔◌, ◌<◌, ◌≤◌, ◌&&◌, IsTrue, IsSomeAnd, length, nat_le, slice_get};
ghost use Rattle.std.specs.Bool.{OnTrue};
ghost use Rattle.std.specs.List.{list_all};
ghost use Rattle.lattice.specs.Frontiers.{is_beyond};
ghost use Rattle.trace.specs.Readings.{all_content};
ghost use Rattle.join.specs.Pairs.{is_wide};

use antichain::{Antichain, is_beyond};
use batch::{Batch, BatchReader};
use batch_trials::{insert, sealed};
use join::JoinState;
use lattice::{Bitime, Lattice};
use oracle_trials::listed;
use row::Row;
use std::alloc::Global;
use std::process::Abort;
use std::test::Fail;
use trace::{BatchList, Trace, all_batches};
use trials::Draws;
use trials::sketches::{Change, at, join_of_two, list};
use update::{Refusal, Update, consolidate};

// Whether update `i` of a batch can be taken: its time is beyond the frontier, and its row has the
// columns of the key and at most 4.
fn is_ready<B: BatchReader>(since: &[B::Time], k: usize, batch: &B, i: usize) -> bool
    requires { i < length (B.content batch.now) }
    ensures { IsSomeAnd (slice_get (B.content batch.now) i)
        (λ u. result ≡ (is_beyond B.Time.times since.now u.time
        && (is_wide k u.row && nat_le (length u.row) 4))) }
{
    let width = batch.row(i).width();
    is_beyond(since, &batch.time(i)) && k <= width && width <= 4
}

// Whether each update of a batch can be taken.
fn are_ready<B: BatchReader>(since: &[B::Time], k: usize, batch: &B) -> bool
    ensures { OnTrue result (IsTrue (list_all (λ u. is_beyond B.Time.times since.now u.time
        && (is_wide k u.row && nat_le (length u.row) 4)) (B.content batch.now))) }
{
    for i in 0..batch.len() {
        if !is_ready(since, k, batch, i) {
            return false;
        }
    }
    true
}

// Whether row `i` of a batch has at most 4 columns.
fn is_short<B: BatchReader>(batch: &B, i: usize) -> bool
    requires { i < length (B.content batch.now) }
    ensures { IsSomeAnd (slice_get (B.content batch.now) i)
        (λ u. result ≡ nat_le (length u.row) 4) }
{
    batch.row(i).width() <= 4
}

// Whether each row of a batch has at most 4 columns.
fn are_short<B: BatchReader>(batch: &B) -> bool
    ensures { OnTrue result (IsTrue (list_all (λ u. nat_le (length u.row) 4)
        (B.content batch.now))) }
{
    for i in 0..batch.len() {
        if !is_short(batch, i) {
            return false;
        }
    }
    true
}

// Whether each row of some batches has at most 4 columns.
fn all_short<B: BatchReader>(batches: &[B]) -> bool
    ensures { OnTrue result (IsTrue (list_all (λ u. nat_le (length u.row) 4)
        (all_content B.content batches.now))) }
{
    for batch in batches {
        if !are_short(batch) {
            return false;
        }
    }
    true
}

// Whether two frontiers are the same, element by element.
fn are_same<T: Lattice>(f: &[T], g: &[T]) -> bool
    ensures { IsTrue result ↔ (f.now ≡ g.now) }
{
    f == g
}

// Takes a batch of the left side. `Stray` if the join asks for more than is so.
fn take_left<T: Lattice, L: Trace<Time = T>, R: Trace<Time = T>>(
    state: &mut JoinState<T, L, R>,
    alloc: Global,
    batch: &L::Batch,
    right: &R,
) -> Result<Vec<Update<T>>, Refusal> {
    if !are_same(batch.description().lower(), state.left())
        || right.through(state.right()).is_none()
        || !are_ready(right.since(), state.key(), batch)
        || !all_short(all_batches(right))
    {
        return Err(Refusal::Stray);
    }
    state.take_left(alloc, batch, right)
}

// Takes a batch of the right side, likewise.
fn take_right<T: Lattice, L: Trace<Time = T>, R: Trace<Time = T>>(
    state: &mut JoinState<T, L, R>,
    alloc: Global,
    batch: &R::Batch,
    left: &L,
) -> Result<Vec<Update<T>>, Refusal> {
    if !are_same(batch.description().lower(), state.right())
        || left.through(state.left()).is_none()
        || !are_ready(left.since(), state.key(), batch)
        || !all_short(all_batches(left))
    {
        return Err(Refusal::Stray);
    }
    state.take_right(alloc, batch, left)
}

type Lists = JoinState<Bitime, BatchList<Bitime>, BatchList<Bitime>>;

// A batch of these changes, between two frontiers of one time each.
fn batch_of(
    alloc: Global,
    lower: (u64, u64),
    upper: (u64, u64),
    changes: &[Change],
) -> Result<Batch<Bitime>, Refusal> {
    sealed(alloc, lower, upper, &list(alloc, changes)?)
}

// A batch list of one batch with these changes, which ends at (8, 8).
fn trace_of(alloc: Global, changes: &[Change]) -> Result<BatchList<Bitime>, Refusal> {
    let mut trace = BatchList::new(alloc, 0, 0)?;
    insert(&mut trace, batch_of(alloc, (0, 0), (8, 8), changes)?)?;
    Ok(trace)
}

// A join by the first columns, whose sides were acknowledged up to one time each.
fn join_from(
    alloc: Global,
    key: usize,
    left: (u64, u64),
    right: (u64, u64),
) -> Result<Lists, Refusal>
    requires some { 1 ≤ key }
    requires few { key ≤ 8 }
{
    let left = Antichain::from_elem(alloc, at(left));
    let right = Antichain::from_elem(alloc, at(right));
    let left = Vec::from_slice(alloc, left.elements())?;
    Ok(JoinState::new(key, left, Vec::from_slice(alloc, right.elements())?))
}

// What the left changes make as a new batch, if the right ones were acknowledged.
fn from_left(
    alloc: Global,
    left: &[Change],
    right: &[Change],
) -> Result<Vec<Update<Bitime>>, Refusal> {
    let right = trace_of(alloc, right)?;
    let batch = batch_of(alloc, (0, 0), (8, 8), left)?;
    take_left(
        &mut join_from(alloc, 1, (0, 0), (8, 8))?,
        alloc,
        &batch,
        &right,
    )
}

// What the right changes make as a new batch, if the left ones were acknowledged.
fn from_right(
    alloc: Global,
    left: &[Change],
    right: &[Change],
) -> Result<Vec<Update<Bitime>>, Refusal> {
    let left = trace_of(alloc, left)?;
    let batch = batch_of(alloc, (0, 0), (8, 8), right)?;
    take_right(
        &mut join_from(alloc, 1, (8, 8), (0, 0))?,
        alloc,
        &batch,
        &left,
    )
}

// The pairs are the same whichever side comes last.
fn assert_pairs(
    rt: &impl Abort,
    alloc: Global,
    left: &[Change],
    right: &[Change],
    want: &[Change],
) -> Result<(), Refusal> {
    let want = list(alloc, want)?;
    assert!(rt; from_left(alloc, left, right)?.as_slice() == want.as_slice());
    assert!(rt; from_right(alloc, left, right)?.as_slice() == want.as_slice());
    Ok(())
}

// A late change of either side is visible from the join of both times. Changes that take each other
// back do so where both are visible. Keys that differ have no pairs.
#[test]
fn pairs_are_at_joined_times(rt: HostRuntime) -> Result<(), Fail> {
    let five: &[Change] = &[((0, 3), &[1, 5], 2)];
    let six: &[Change] = &[((3, 0), &[1, 6], -1)];
    assert_pairs(&rt, rt.alloc(), five, six, &[((3, 3), &[1, 5, 6], -2)])?;
    let gone: &[Change] = &[((0, 1), &[1, 6], 1), ((0, 2), &[1, 6], -1)];
    assert_pairs(&rt, rt.alloc(), five, gone, &[])?;
    assert_pairs(&rt, rt.alloc(), five, &[((3, 0), &[2, 6], 1)], &[])?;
    Ok(())
}

// What was inserted at (3, 0) may be stored at (3, 4), as of {(0, 4)}. A batch whose times are
// beyond that frontier has the same pairs with both.
#[test]
fn moved_times_give_the_same_pairs(rt: HostRuntime) -> Result<(), Fail> {
    let left: &[Change] = &[((2, 4), &[1, 5], 1)];
    let pair: &[Change] = &[((3, 4), &[1, 5, 6], 1)];
    assert_pairs(&rt, rt.alloc(), left, &[((3, 0), &[1, 6], 1)], pair)?;
    assert_pairs(&rt, rt.alloc(), left, &[((3, 4), &[1, 6], 1)], pair)?;
    Ok(())
}

// A row at each of the times (0, 0) to (99, 0).
fn at_each_time(alloc: Global, row: &[i64]) -> Result<Vec<Update<Bitime>>, Refusal> {
    let mut changes = Vec::new(alloc);
    for i in 0..100 {
        let row = Row::new(alloc, row)?;
        changes.push(Update {
            time: at((i, 0)),
            row,
            diff: 1,
        })?;
    }
    Ok(changes)
}

// Ten thousand pairs have a hundred times. At (i, 0) there are those of the late update with all up
// to it, and of all up to it with the late one: 2 i and 1.
#[test]
fn pairs_of_one_time_become_one(rt: HostRuntime) -> Result<(), Fail> {
    let left = sealed(
        rt.alloc(),
        (0, 0),
        (100, 0),
        &at_each_time(rt.alloc(), &[1, 5])?,
    )?;
    let right = sealed(
        rt.alloc(),
        (0, 0),
        (100, 0),
        &at_each_time(rt.alloc(), &[1, 6])?,
    )?;
    let mut trace = BatchList::new(rt.alloc(), 0, 0)?;
    insert(&mut trace, right)?;
    let mut state = join_from(rt.alloc(), 1, (0, 0), (100, 0))?;
    let pairs = take_left(&mut state, rt.alloc(), &left, &trace)?;
    assert!(rt; pairs.len() == 100 && state.looked() == 10_000);
    assert!(rt; matches!(pairs.last(), Some(last) if last.time == at((99, 0)) && last.diff == 199));
    Ok(())
}

// Weights are multiplied as 64-bit numbers. What does not fit is refused, and the join has not
// moved.
#[test]
fn large_products_are_refused(rt: HostRuntime) -> Result<(), Fail> {
    let large: &[Change] = &[((0, 0), &[1, 5], 2_147_483_647)];
    let product: &[Change] = &[((0, 0), &[1, 5, 5], 4_611_686_014_132_420_609)];
    assert_pairs(&rt, rt.alloc(), large, large, product)?;
    let right = trace_of(rt.alloc(), &[((0, 0), &[1, 5], 4_611_686_014_132_420_609)])?;
    let batch = batch_of(rt.alloc(), (0, 0), (8, 8), large)?;
    let mut state = join_from(rt.alloc(), 1, (0, 0), (8, 8))?;
    assert!(rt; take_left(&mut state, rt.alloc(), &batch, &right) == Err(Refusal::Overflow));
    assert!(rt;
        state.left() == [at((0, 0))].as_slice() && state.right() == [at((8, 8))].as_slice()
    );
    assert!(rt; state.looked() == 0);
    Ok(())
}

// With a key of two columns the third ones are all that is left of a right row.
#[test]
fn keys_have_several_columns(rt: HostRuntime) -> Result<(), Fail> {
    let right = trace_of(
        rt.alloc(),
        &[((0, 1), &[1, 2, 4], 3), ((0, 1), &[1, 3, 4], 1)],
    )?;
    let batch = batch_of(rt.alloc(), (0, 0), (8, 8), &[((1, 0), &[1, 2, 3], 2)])?;
    let mut state = join_from(rt.alloc(), 2, (0, 0), (8, 8))?;
    let pairs = take_left(&mut state, rt.alloc(), &batch, &right)?;
    let want = list(rt.alloc(), &[((1, 1), &[1, 2, 3, 4], 6)])?;
    assert!(rt; pairs.as_slice() == want.as_slice());
    assert!(rt; state.left() == [at((8, 8))].as_slice() && state.looked() == 1);
    Ok(())
}

// Where nothing was acknowledged there are no pairs, although the trace has updates by then.
#[test]
fn what_is_not_acknowledged_is_not_paired(rt: HostRuntime) -> Result<(), Fail> {
    let seven: &[Change] = &[((0, 1), &[7], 1)];
    let right = trace_of(rt.alloc(), seven)?;
    let batch = batch_of(rt.alloc(), (0, 0), (4, 4), seven)?;
    let mut state = join_from(rt.alloc(), 1, (0, 0), (0, 0))?;
    assert!(rt; take_left(&mut state, rt.alloc(), &batch, &right)?.is_empty());
    assert!(rt;
        state.left() == [at((4, 4))].as_slice() && state.right() == [at((0, 0))].as_slice()
    );
    Ok(())
}

// Takes the first batch that was not acknowledged on the left.
fn take_own_left(
    state: &mut Lists,
    alloc: Global,
    trace: &BatchList<Bitime>,
) -> Result<Vec<Update<Bitime>>, Refusal> {
    let Some([batch, ..]) = trace.after(state.left()) else {
        return Err(Refusal::Stray);
    };
    take_left(state, alloc, batch, trace)
}

// Takes the first batch that was not acknowledged on the right.
fn take_own_right(
    state: &mut Lists,
    alloc: Global,
    trace: &BatchList<Bitime>,
) -> Result<Vec<Update<Bitime>>, Refusal> {
    let Some([batch, ..]) = trace.after(state.right()) else {
        return Err(Refusal::Stray);
    };
    take_right(state, alloc, batch, trace)
}

// A table of two batches.
fn two_sevens(alloc: Global) -> Result<BatchList<Bitime>, Refusal> {
    let mut trace = BatchList::new(alloc, 0, 0)?;
    insert(
        &mut trace,
        batch_of(alloc, (0, 0), (1, 0), &[((0, 1), &[7], 1)])?,
    )?;
    insert(
        &mut trace,
        batch_of(alloc, (1, 0), (2, 0), &[((1, 0), &[7], 1)])?,
    )?;
    Ok(trace)
}

// All pairs of a table with itself, each batch taken on the left first.
fn left_first(alloc: Global, trace: &BatchList<Bitime>) -> Result<Vec<Update<Bitime>>, Refusal> {
    let mut state = join_from(alloc, 1, (0, 0), (0, 0))?;
    let mut pairs = take_own_left(&mut state, alloc, trace)?;
    pairs.append(&mut take_own_right(&mut state, alloc, trace)?)?;
    pairs.append(&mut take_own_left(&mut state, alloc, trace)?)?;
    pairs.append(&mut take_own_right(&mut state, alloc, trace)?)?;
    consolidate(pairs)
}

// The same, but both batches on the right first.
fn right_first(alloc: Global, trace: &BatchList<Bitime>) -> Result<Vec<Update<Bitime>>, Refusal> {
    let mut state = join_from(alloc, 1, (0, 0), (0, 0))?;
    let mut pairs = take_own_right(&mut state, alloc, trace)?;
    pairs.append(&mut take_own_right(&mut state, alloc, trace)?)?;
    pairs.append(&mut take_own_left(&mut state, alloc, trace)?)?;
    pairs.append(&mut take_own_left(&mut state, alloc, trace)?)?;
    consolidate(pairs)
}

// A row that comes at (0, 1) and again at (1, 0) is paired with itself at both, and with the other
// one from (1, 1) on. That makes 1 and 1 pairs there, and 4 in all from (1, 1) on.
#[test]
fn a_table_is_joined_with_itself(rt: HostRuntime) -> Result<(), Fail> {
    let want = list(
        rt.alloc(),
        &[((0, 1), &[7], 1), ((1, 0), &[7], 1), ((1, 1), &[7], 2)],
    )?;
    let trace = two_sevens(rt.alloc())?;
    assert!(rt; left_first(rt.alloc(), &trace)?.as_slice() == want.as_slice());
    assert!(rt; right_first(rt.alloc(), &trace)?.as_slice() == want.as_slice());
    Ok(())
}

// A trace of these changes, whichever of its allocations was refused.
fn trace_again(alloc: Global, changes: &[Change]) -> Result<BatchList<Bitime>, Refusal> {
    match trace_of(alloc, changes) {
        Err(Refusal::OutOfMemory) => trace_of(alloc, changes),
        done => done,
    }
}

// A batch of these changes, whichever of its allocations was refused.
fn batch_again(alloc: Global, changes: &[Change]) -> Result<Batch<Bitime>, Refusal> {
    match batch_of(alloc, (0, 0), (8, 8), changes) {
        Err(Refusal::OutOfMemory) => batch_of(alloc, (0, 0), (8, 8), changes),
        done => done,
    }
}

// A join by the first column, whichever of its allocations was refused.
fn join_again(alloc: Global, left: (u64, u64), right: (u64, u64)) -> Result<Lists, Refusal> {
    match join_from(alloc, 1, left, right) {
        Err(Refusal::OutOfMemory) => join_from(alloc, 1, left, right),
        done => done,
    }
}

// A refused call has moved nothing, and the next one answers as if it had not been.
#[test]
fn taking_a_left_batch_takes_memory(rt: HostRuntime) -> Result<(), Fail> {
    let right = trace_again(rt.alloc(), &[((0, 1), &[1, 6], 3), ((0, 2), &[1, 7], 1)])?;
    let batch = batch_again(rt.alloc(), &[((1, 0), &[1, 5], 1), ((2, 0), &[1, 5], 1)])?;
    let mut state = join_again(rt.alloc(), (0, 0), (8, 8))?;
    let mut pairs = take_left(&mut state, rt.alloc(), &batch, &right);
    if pairs == Err(Refusal::OutOfMemory) {
        assert!(rt; state.left() == [at((0, 0))].as_slice() && state.looked() == 0);
        pairs = take_left(&mut state, rt.alloc(), &batch, &right);
    }
    assert!(rt; pairs?.len() == 4);
    assert!(rt; state.left() == [at((8, 8))].as_slice() && state.looked() == 4);
    Ok(())
}

// The same of the right side.
#[test]
fn taking_a_right_batch_takes_memory(rt: HostRuntime) -> Result<(), Fail> {
    let left = trace_again(rt.alloc(), &[((0, 1), &[1, 6], 3), ((0, 2), &[1, 7], 1)])?;
    let batch = batch_again(rt.alloc(), &[((1, 0), &[1, 5], 1), ((2, 0), &[1, 5], 1)])?;
    let mut state = join_again(rt.alloc(), (8, 8), (0, 0))?;
    let mut pairs = take_right(&mut state, rt.alloc(), &batch, &left);
    if pairs == Err(Refusal::OutOfMemory) {
        assert!(rt; state.right() == [at((0, 0))].as_slice() && state.looked() == 0);
        pairs = take_right(&mut state, rt.alloc(), &batch, &left);
    }
    assert!(rt; pairs?.len() == 4);
    assert!(rt; state.right() == [at((8, 8))].as_slice() && state.looked() == 4);
    Ok(())
}

// Up to four changes of the interval from (i, 0) to (i + 1, 0).
fn drawn(alloc: Global, draws: &mut Draws, i: u64) -> Result<Vec<Update<Bitime>>, Refusal> {
    let mut changes = Vec::new(alloc);
    for _ in 0..draws.below(5) {
        let time = at((i, draws.below(6)));
        changes.push(draws.change(alloc, time)?)?;
    }
    Ok(changes)
}

// One side of a join: its trace, what was inserted, and how many batches.
#[derive(Drop)]
struct Side {
    trace: BatchList<Bitime>,
    changes: Vec<Update<Bitime>>,
    batches: u64,
}

impl Side {
    fn new(alloc: Global) -> Result<Side, Refusal> {
        Ok(Side {
            trace: BatchList::new(alloc, 0, 0)?,
            changes: Vec::new(alloc),
            batches: 0,
        })
    }

    // Inserts a drawn batch.
    fn insert_drawn(&mut self, alloc: Global, draws: &mut Draws) -> Result<(), Refusal> {
        let i = self.batches;
        self.batches = i.saturating_add(1);
        let mut changes = drawn(alloc, draws, i)?;
        let batch = sealed(alloc, (i, 0), (self.batches, 0), &changes)?;
        self.changes.append(&mut changes)?;
        insert(&mut self.trace, batch)
    }
}

// Both sides of a join, and all pairs so far.
#[derive(Drop)]
struct Round {
    left: Side,
    right: Side,
    state: Lists,
    pairs: Vec<Update<Bitime>>,
}

impl Round {
    // A drawn batch comes on a drawn side, and is taken.
    fn step(&mut self, alloc: Global, draws: &mut Draws) -> Result<(), Refusal> {
        let mut pairs = if draws.below(2) == 0 {
            self.left.insert_drawn(alloc, draws)?;
            let Some([batch, ..]) = self.left.trace.after(self.state.left()) else {
                return Err(Refusal::Stray);
            };
            take_left(&mut self.state, alloc, batch, &self.right.trace)?
        } else {
            self.right.insert_drawn(alloc, draws)?;
            let Some([batch, ..]) = self.right.trace.after(self.state.right()) else {
                return Err(Refusal::Stray);
            };
            take_right(&mut self.state, alloc, batch, &self.left.trace)?
        };
        Ok(self.pairs.append(&mut pairs)?)
    }
}

// Ten drawn batches, taken as they come.
fn drawn_round(alloc: Global, draws: &mut Draws) -> Result<Round, Refusal> {
    let mut round = Round {
        left: Side::new(alloc)?,
        right: Side::new(alloc)?,
        state: join_from(alloc, 1, (0, 0), (0, 0))?,
        pairs: Vec::new(alloc),
    };
    for _ in 0..10 {
        round.step(alloc, draws)?;
    }
    Ok(round)
}

// Checks that all pairs of a round are the differences of the plain query.
fn assert_round(rt: &impl Abort, alloc: Global, draws: &mut Draws) -> Result<(), Refusal> {
    let Round {
        left,
        right,
        pairs,
        ..
    } = drawn_round(alloc, draws)?;
    let plan = join_of_two(alloc, 2)?;
    let want = listed(alloc, &plan, &[left.changes, right.changes], &[])?;
    assert!(rt; consolidate(pairs)?.as_slice() == want.as_slice());
    Ok(())
}

// A thousand batches in a hundred rounds. The plain query knows no batches, no boundaries and no
// order of coming.
#[test]
fn drawn_batches_give_the_plain_query(rt: HostRuntime) -> Result<(), Fail> {
    let mut draws = Draws::new(20);
    for _ in 0..100 {
        assert_round(&rt, rt.alloc(), &mut draws)?;
    }
    Ok(())
}
