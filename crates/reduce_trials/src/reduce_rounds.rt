//! Reductions of drawn changes. However the changes are split into batches, and whenever the
//! frontier moves, what was given up to a frontier is the list of differences of the plain query.
//! The plain query knows no batches, and no order in which they come.
use crate::reduce_tests::{Reduction, take};
use antichain::Antichain;
use batch::Batch;
use batch_trials::{insert, sealed};
use lattice::{Bitime, PartialOrder};
use oracle_trials::listed;
use plan::{Kind, Plan};
use std::alloc::Global;
use std::mem;
use std::process::Abort;
use std::test::Fail;
use trials::Draws;
use trials::sketches::{at, reduction};
use update::{Refusal, Update, consolidate};

// A reduction, as a plan too, and the changes of its one input.
#[derive(Drop)]
struct Query {
    kind: Kind,
    plan: Plan,
    changes: Vec<Vec<Update<Bitime>>>,
}

// The changes of all inputs between two frontiers of one time each.
fn between(
    alloc: Global,
    changes: &[Vec<Update<Bitime>>],
    lower: (u64, u64),
    upper: (u64, u64),
) -> Result<Vec<Update<Bitime>>, Refusal> {
    let mut part = Vec::new(alloc);
    for change in changes.iter().flatten() {
        if at(lower).less_equal(&change.time) && !at(upper).less_equal(&change.time) {
            part.push(change.copy())?;
        }
    }
    Ok(part)
}

// A reduction on its way through drawn changes: up to which time it has taken them, and what it has
// given, consolidated.
#[derive(Drop)]
struct Round {
    reduction: Reduction,
    upper: (u64, u64),
    given: Vec<Update<Bitime>>,
}

impl Round {
    fn new(alloc: Global, kind: Kind) -> Result<Round, Refusal> {
        Ok(Round {
            reduction: Reduction::new(alloc, kind)?,
            upper: (0, 0),
            given: Vec::new(alloc),
        })
    }

    // Takes the changes up to a later time.
    fn take(&mut self, alloc: Global, query: &Query, upper: (u64, u64)) -> Result<(), Refusal> {
        let part = between(alloc, &query.changes, self.upper, upper)?;
        self.reduction.take(alloc, self.upper, upper, &part)?;
        self.upper = upper;
        Ok(())
    }

    // Adds what is ready as of a frontier to what was given.
    fn ready(&mut self, alloc: Global, frontier: &[Bitime]) -> Result<(), Refusal> {
        let mut given = mem::replace(&mut self.given, Vec::new(alloc));
        given.append(&mut self.reduction.ready(alloc, frontier)?)?;
        self.given = consolidate(given)?;
        Ok(())
    }
}

// Checks that what was given is the list of differences as of a frontier.
fn assert_given(
    rt: &impl Abort,
    alloc: Global,
    query: &Query,
    given: &[Update<Bitime>],
    frontiers: &[Antichain<Bitime>],
) -> Result<(), Refusal> {
    let want = listed(alloc, &query.plan, &query.changes, frontiers)?;
    assert!(rt; given == want.as_slice());
    Ok(())
}

// A time after this one: later by one valid time, by one system time, or by both.
fn later(draws: &mut Draws, (valid, system): (u64, u64)) -> (u64, u64) {
    match draws.below(3) {
        0 => (valid.saturating_add(1), system),
        1 => (valid, system.saturating_add(1)),
        _ => (valid.saturating_add(1), system.saturating_add(1)),
    }
}

// Takes the changes up to a drawn time. Then nothing is asked; or what is ready as of a drawn
// frontier that has passed less; or what is ready as of all that was taken, which is checked. All
// that comes later is beyond that frontier, so what is kept is then folded as of it.
fn step(
    rt: &impl Abort,
    alloc: Global,
    draws: &mut Draws,
    query: &Query,
    round: &mut Round,
) -> Result<(), Refusal> {
    let upper = later(draws, round.upper);
    round.take(alloc, query, upper)?;
    let mut frontier = Antichain::from_elem(alloc, at(upper));
    match draws.below(3) {
        0 => Ok(()),
        1 => {
            frontier.insert(at((draws.below(6), draws.below(6))))?;
            round.ready(alloc, frontier.elements())
        }
        _ => {
            round.ready(alloc, frontier.elements())?;
            round.reduction.state.compact(alloc, frontier.elements())?;
            assert_given(rt, alloc, query, &round.given, &[frontier])
        }
    }
}

// Checks all that is given for the changes, in drawn steps.
fn assert_steps(
    rt: &impl Abort,
    alloc: Global,
    draws: &mut Draws,
    query: &Query,
) -> Result<(), Refusal> {
    let mut round = Round::new(alloc, query.kind)?;
    for _ in 0..5 {
        step(rt, alloc, draws, query, &mut round)?;
    }
    round.take(alloc, query, (16, 16))?;
    round.ready(alloc, &[])?;
    assert_given(rt, alloc, query, &round.given, &[])
}

// A batch of the changes between two frontiers of one time each.
fn batch_between(
    alloc: Global,
    query: &Query,
    lower: (u64, u64),
    upper: (u64, u64),
) -> Result<Batch<Bitime>, Refusal> {
    let part = between(alloc, &query.changes, lower, upper)?;
    sealed(alloc, lower, upper, &part)
}

// Takes two batches, the later one first. The trace gets them in order.
fn take_backwards(
    reduction: &mut Reduction,
    alloc: Global,
    early: Batch<Bitime>,
    late: Batch<Bitime>,
) -> Result<(), Refusal> {
    take(&mut reduction.state, alloc, &late)?;
    take(&mut reduction.state, alloc, &early)?;
    insert(&mut reduction.trace, early)?;
    insert(&mut reduction.trace, late)
}

// What is given for the changes in two batches, consolidated, if the later one is taken first.
fn backwards(alloc: Global, query: &Query) -> Result<Vec<Update<Bitime>>, Refusal> {
    let early = batch_between(alloc, query, (0, 0), (2, 1))?;
    let late = batch_between(alloc, query, (2, 1), (16, 16))?;
    let mut reduction = Reduction::new(alloc, query.kind)?;
    take_backwards(&mut reduction, alloc, early, late)?;
    consolidate(reduction.ready(alloc, &[])?)
}

// Twelve drawn changes, and a reduction of this kind by their first column.
fn drawn(alloc: Global, draws: &mut Draws, kind: Kind) -> Result<Query, Refusal> {
    let mut changes = Vec::new(alloc);
    for _ in 0..12 {
        let time = at((draws.below(5), draws.below(5)));
        changes.push(draws.change(alloc, time)?)?;
    }
    let mut lists = Vec::new(alloc);
    lists.push(changes)?;
    Ok(Query {
        kind,
        plan: reduction(alloc, 2, kind)?,
        changes: lists,
    })
}

// The same changes are taken twice in drawn steps, and once backwards. All three are to give the
// same list.
fn assert_kind(rt: &impl Abort, alloc: Global, kind: Kind) -> Result<(), Refusal> {
    let mut draws = Draws::new(22);
    for _ in 0..20 {
        let query = drawn(alloc, &mut draws, kind)?;
        assert_steps(rt, alloc, &mut draws, &query)?;
        assert_steps(rt, alloc, &mut draws, &query)?;
        let given = backwards(alloc, &query)?;
        assert_given(rt, alloc, &query, &given, &[])?;
    }
    Ok(())
}

#[test]
fn drawn_changes_give_the_plain_query(rt: HostRuntime) -> Result<(), Fail> {
    assert_kind(&rt, rt.alloc(), Kind::Count)?;
    assert_kind(&rt, rt.alloc(), Kind::Distinct)?;
    assert_kind(&rt, rt.alloc(), Kind::Min)?;
    assert_kind(&rt, rt.alloc(), Kind::Max)?;
    Ok(())
}
