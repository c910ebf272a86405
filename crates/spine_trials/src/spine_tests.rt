//! Spines: merges happen if there is memory, and not across a boundary that a reader may ask for;
//! they move times where no reader can tell; and a spine that is given fuel for each insertion
//! keeps few batches. Which neighbours are merged is promised by no clause.
ghost use Rattle.std.specs.Prelude.{◌≡◌, ◌∷◌, ◌++◌, List, [], IfOk, OnErr};
ghost use Rattle.std.specs.List.{Contains};
ghost use Rattle.spine.specs.HoldRules.{AreSameHolds};

use antichain::Antichain;
use batch::{Batch, BatchReader};
use batch_trials::sealed;
use lattice::Bitime;
use spine::{Spine, holds_are_kept_apart};
use std::alloc::Global;
use std::process::Abort;
use std::test::Fail;
use trace::{Hold, Trace, all_batches};
use trials::sketches::{at, list};
use update::Refusal;

// A spine and its hold, and once more if memory was refused.
fn begin(alloc: Global) -> Result<(Spine<Bitime>, Hold<Bitime>), Refusal>
    ensures { IfOk result (λ made. made.0.holds ≡ made.1 ∷ []) }
{
    match Spine::new(alloc, 0, 0) {
        Err(Refusal::OutOfMemory) => Spine::new(alloc, 0, 0),
        done => done,
    }
}

// Works with some fuel. The holds stay.
fn work(spine: &mut Spine<Bitime>, fuel: u64) -> Result<bool, Refusal>
    ensures { spine.new.holds ≡ spine.old.holds }
{
    spine.work(fuel)
}

// Inserts the batch, and once more if it comes back.
fn insert(spine: &mut Spine<Bitime>, batch: Batch<Bitime>) -> Result<(), Refusal>
    ensures { spine.new.holds ≡ spine.old.holds }
{
    match spine.insert(batch) {
        Ok(()) => Ok(()),
        Err(first) => match spine.insert(first.batch) {
            Ok(()) => Ok(()),
            Err(second) => Err(second.refusal),
        },
    }
}

// Makes room for one more batch, and once more if memory was refused.
fn reserve(spine: &mut Spine<Bitime>) -> Result<(), Refusal>
    ensures { spine.new.holds ≡ spine.old.holds }
{
    match spine.reserve() {
        Err(Refusal::OutOfMemory) => spine.reserve(),
        done => done,
    }
}

// A batch of one update of the row [7] between two frontiers of one time each, and once more if
// memory was refused.
fn one_seven(
    alloc: Global,
    lower: (u64, u64),
    upper: (u64, u64),
    time: (u64, u64),
    diff: i64,
) -> Result<Batch<Bitime>, Refusal> {
    match list(alloc, &[(time, &[7], diff)]) {
        Ok(updates) => sealed(alloc, lower, upper, &updates),
        Err(_) => sealed(alloc, lower, upper, &list(alloc, &[(time, &[7], diff)])?),
    }
}

// A batch as above, whichever of its allocations was refused.
fn seven(
    alloc: Global,
    lower: (u64, u64),
    upper: (u64, u64),
    time: (u64, u64),
    diff: i64,
) -> Result<Batch<Bitime>, Refusal> {
    match one_seven(alloc, lower, upper, time, diff) {
        Err(Refusal::OutOfMemory) => one_seven(alloc, lower, upper, time, diff),
        done => done,
    }
}

// Three batches, which end at (1, 1), (2, 2) and (3, 3).
fn insert_three(alloc: Global, spine: &mut Spine<Bitime>) -> Result<(), Refusal>
    ensures { spine.new.holds ≡ spine.old.holds }
{
    insert(spine, seven(alloc, (0, 0), (1, 1), (0, 3), 1)?)?;
    insert(spine, seven(alloc, (1, 1), (2, 2), (1, 3), -1)?)?;
    reserve(spine)?;
    insert(spine, seven(alloc, (2, 2), (3, 3), (2, 2), 5)?)
}

// Moves the hold's physical frontier on, and once more if memory was refused.
fn advance(
    alloc: Global,
    spine: &mut Spine<Bitime>,
    hold: &mut Hold<Bitime>,
    physical: (u64, u64),
) -> Result<(), Refusal>
    requires { Contains spine.old.holds hold.old }
    ensures { Contains spine.new.holds hold.new }
{
    let logical = Antichain::from_elem(alloc, at((0, 0)));
    let physical = Antichain::from_elem(alloc, at(physical));
    match spine.advance_hold(alloc, hold, &logical, &physical) {
        Err(Refusal::OutOfMemory) => spine.advance_hold(alloc, hold, &logical, &physical),
        done => done,
    }
}

// Merges all that may be merged, and once more if memory was refused.
fn merge_all(spine: &mut Spine<Bitime>) -> Result<bool, Refusal>
    ensures { spine.new.holds ≡ spine.old.holds }
{
    match spine.work(1_000) {
        Err(Refusal::OutOfMemory) => spine.work(1_000),
        done => done,
    }
}

// Merges under a hold from (2, 2) on.
fn merge_under_a_hold(
    rt: &impl Abort,
    alloc: Global,
    spine: &mut Spine<Bitime>,
    hold: &mut Hold<Bitime>,
) -> Result<(), Refusal>
    requires { Contains spine.old.holds hold.old }
    ensures { Contains spine.new.holds hold.new }
{
    insert_three(alloc, spine)?;
    advance(alloc, spine, hold, (2, 2))?;
    let back = advance(alloc, spine, hold, (1, 3));
    assert!(rt; back == Err(Refusal::NotForward) && hold.physical() == [at((2, 2))].as_slice());
    assert!(rt; merge_all(spine)?);
    assert!(rt; spine.kept() == 3 && spine.copied() == 2);
    let stray = seven(alloc, (2, 2), (4, 4), (2, 2), 1)?;
    assert!(rt; insert(spine, stray) == Err(Refusal::Stray));
    Ok(())
}

// The boundary (1, 1) goes away, since no reader may ask for it any more; (2, 2) stays.
#[test]
fn merging_takes_memory(rt: HostRuntime) -> Result<(), Fail> {
    let (mut spine, mut hold) = begin(rt.alloc())?;
    let outcome = merge_under_a_hold(&rt, rt.alloc(), &mut spine, &mut hold);
    spine.release(hold);
    outcome?;
    assert!(rt; matches!(spine.through(&[at((0, 0))]), Some([])));
    assert!(rt; spine.through(&[at((1, 1))]).is_none());
    assert!(rt; matches!(spine.through(&[at((2, 2))]), Some([both]) if both.len() == 2));
    assert!(rt; matches!(spine.through(&[at((3, 3))]), Some([_, _])));
    assert!(rt; spine.since().is_empty());
    Ok(())
}

// Inserts a batch of one update behind all others.
fn insert_one(alloc: Global, spine: &mut Spine<Bitime>, i: u64) -> Result<(), Refusal> {
    let batch = seven(alloc, (i, 0), (i.saturating_add(1), 0), (i, 0), 1)?;
    insert(spine, batch)
}

// Inserts so many batches of one update, with some fuel after each, and answers the greatest number
// of batches that there were.
fn most_batches(
    alloc: Global,
    spine: &mut Spine<Bitime>,
    insertions: u64,
    fuel: u64,
) -> Result<usize, Refusal> {
    let mut most = 0usize;
    for i in 0..insertions {
        insert_one(alloc, spine, i)?;
        spine.work(fuel)?;
        most = most.max(all_batches(spine).len());
    }
    Ok(most)
}

// While 4,096 updates are inserted one by one, with 16 units of fuel for each, there are never more
// batches than 13, which would be one for each power of two. If nothing was merged while a long
// merge is under way, there would be hundreds. A policy that spends all fuel on pushing small
// batches into large ones leaves many, too.
#[test]
fn many_insertions_leave_few_batches(rt: HostRuntime) -> Result<(), Fail> {
    let (mut spine, hold) = Spine::new(rt.alloc(), 0, 0)?;
    spine.release(hold);
    let most = most_batches(rt.alloc(), &mut spine, 4_096, 16)?;
    assert!(rt; spine.kept() == 4_096 && most <= 13);
    Ok(())
}

// Moves the logical frontier of a hold on, and once more if memory was refused. The other holds
// stay.
fn read_from(
    alloc: Global,
    spine: &mut Spine<Bitime>,
    hold: &mut Hold<Bitime>,
    logical: (u64, u64),
) -> Result<(), Refusal>
    requires { Contains spine.old.holds hold.old }
    ensures { (others : List _)
        → AreSameHolds (hold.old ∷ others) spine.old.holds
        → AreSameHolds (hold.new ∷ others) spine.new.holds }
{
    holds_are_kept_apart::<Bitime>();
    let logical = Antichain::from_elem(alloc, at(logical));
    let physical = Antichain::from_elem(alloc, at((0, 0)));
    match spine.advance_hold(alloc, hold, &logical, &physical) {
        Err(Refusal::OutOfMemory) => spine.advance_hold(alloc, hold, &logical, &physical),
        done => done,
    }
}

// Lets one reader read from (0, 3) on and another one from (3, 0) on.
fn read_apart(
    alloc: Global,
    spine: &mut Spine<Bitime>,
    first: &mut Hold<Bitime>,
    second: &mut Hold<Bitime>,
) -> Result<(), Refusal>
    requires { AreSameHolds (second.old ∷ first.old ∷ []) spine.old.holds }
    ensures { AreSameHolds (second.new ∷ first.new ∷ []) spine.new.holds }
{
    holds_are_kept_apart::<Bitime>();
    read_from(alloc, spine, first, (0, 3))?;
    read_from(alloc, spine, second, (3, 0))
}

// One more hold, and once more if memory was refused.
fn one_more(alloc: Global, spine: &mut Spine<Bitime>) -> Result<Hold<Bitime>, Refusal>
    ensures held { IfOk result (λ hold. spine.new.holds ≡ spine.old.holds ++ hold ∷ []) }
    ensures same { OnErr result (spine.new.holds ≡ spine.old.holds) }
{
    match spine.hold(alloc) {
        Err(Refusal::OutOfMemory) => spine.hold(alloc),
        done => done,
    }
}

// Ends a hold. The other holds stay.
fn end(spine: &mut Spine<Bitime>, hold: Hold<Bitime>)
    requires { Contains spine.old.holds hold }
    ensures { (others : List _)
        → AreSameHolds (hold ∷ others) spine.old.holds → AreSameHolds others spine.new.holds }
{
    holds_are_kept_apart::<Bitime>();
    spine.release(hold);
}

// The since of two holds is the least of both logical frontiers; that of one is its own.
fn read_with_another(
    rt: &impl Abort,
    alloc: Global,
    spine: &mut Spine<Bitime>,
    first: &mut Hold<Bitime>,
) -> Result<(), Refusal>
    requires { AreSameHolds (first.old ∷ []) spine.old.holds }
    ensures { AreSameHolds (first.new ∷ []) spine.new.holds }
{
    holds_are_kept_apart::<Bitime>();
    let mut second = one_more(alloc, spine)?;
    let outcome = read_apart(alloc, spine, first, &mut second);
    let least = spine.since() == [at((0, 3)), at((3, 0))].as_slice();
    end(spine, second);
    outcome?;
    assert!(rt; least && spine.since() == [at((0, 3))].as_slice());
    Ok(())
}

// The since of no hold is empty. Each call is made once more where memory was refused.
#[test]
fn a_since_of_many_holds_takes_memory(rt: HostRuntime) -> Result<(), Fail> {
    let (mut spine, mut first) = begin(rt.alloc())?;
    holds_are_kept_apart::<Bitime>();
    let outcome = read_with_another(&rt, rt.alloc(), &mut spine, &mut first);
    spine.release(first);
    outcome?;
    assert!(rt; spine.since().is_empty());
    Ok(())
}

// The batch of the row [7] with difference 1 at each of these times, and once more if memory was
// refused.
fn sevens(
    alloc: Global,
    lower: (u64, u64),
    upper: (u64, u64),
    times: &[(u64, u64)],
) -> Result<Batch<Bitime>, Refusal> {
    let mut updates = Vec::new(alloc);
    for time in times {
        updates.append(&mut list(alloc, &[(*time, &[7], 1)])?)?;
    }
    sealed(alloc, lower, upper, &updates)
}

// Six updates in three batches, and a reader that asks for no boundary before the last one, and
// sums only at times beyond {(2, 5), (5, 2)}.
fn read_beyond_two_times(
    alloc: Global,
    spine: &mut Spine<Bitime>,
    hold: &mut Hold<Bitime>,
) -> Result<(), Refusal>
    requires { Contains spine.old.holds hold.old }
    ensures { Contains spine.new.holds hold.new }
{
    insert(spine, sevens(alloc, (0, 0), (1, 0), &[(0, 0), (0, 3)])?)?;
    insert(spine, sevens(alloc, (1, 0), (2, 0), &[(1, 1)])?)?;
    insert(
        spine,
        sevens(alloc, (2, 0), (9, 0), &[(2, 2), (3, 0), (3, 3)])?,
    )?;
    let mut logical = Antichain::from_elem(alloc, at((2, 5)));
    logical.insert(at((5, 2)))?;
    let physical = Antichain::from_elem(alloc, at((9, 0)));
    spine.advance_hold(alloc, hold, &logical, &physical)
}

// The sum of all differences at times at or before (5, 3). The row is [7] throughout.
fn sum_at_5_3(spine: &Spine<Bitime>) -> i64 {
    let mut sum = 0i64;
    for batch in all_batches(spine) {
        for i in 0..batch.len() {
            if batch.time(i).first <= 5 && batch.time(i).second <= 3 {
                sum = sum.wrapping_add(batch.diff(i));
            }
        }
    }
    sum
}

// Whether the spine has one batch with four updates: three of the six have become one.
fn is_moved(spine: &Spine<Bitime>) -> bool {
    let [batch] = all_batches(spine) else {
        return false;
    };
    batch.len() == 4
        && batch.time(0) == at((2, 2))
        && batch.diff(0) == 3
        && batch.time(1) == at((2, 3))
        && batch.time(2) == at((3, 2))
        && batch.time(3) == at((3, 3))
}

// Work without fuel changes nothing, and with all of it leaves what was worked out by hand.
fn move_times(
    rt: &impl Abort,
    alloc: Global,
    spine: &mut Spine<Bitime>,
    hold: &mut Hold<Bitime>,
) -> Result<(), Refusal>
    requires { Contains spine.old.holds hold.old }
    ensures { Contains spine.new.holds hold.new }
{
    read_beyond_two_times(alloc, spine, hold)?;
    assert!(rt; !spine.work(0)? && all_batches(spine).len() == 3 && sum_at_5_3(spine) == 6);
    assert!(rt; spine.work(18_446_744_073_709_551_615)?);
    assert!(rt; is_moved(spine) && sum_at_5_3(spine) == 6 && spine.kept() == 4);
    Ok(())
}

// A spine that merged but moved no time would keep six updates.
#[test]
fn merges_move_times_that_no_reader_tells_apart(rt: HostRuntime) -> Result<(), Fail> {
    let (mut spine, mut hold) = Spine::new(rt.alloc(), 0, 0)?;
    let outcome = move_times(&rt, rt.alloc(), &mut spine, &mut hold);
    spine.release(hold);
    outcome?;
    Ok(())
}

// Works with one unit of fuel so many times. True if the sum was 6 after each, and only the last
// call answered that nothing is left to do.
fn work_by_units(spine: &mut Spine<Bitime>, calls: u64) -> Result<bool, Refusal>
    ensures { spine.new.holds ≡ spine.old.holds }
{
    let mut is_well = true;
    for call in 1..=calls {
        let done = work(spine, 1)?;
        is_well = is_well && done == (call == calls) && sum_at_5_3(spine) == 6;
    }
    Ok(is_well)
}

// The merge of one and three updates takes five units, and leaves three updates. Their merge with
// the first two takes six.
fn move_times_by_units(
    rt: &impl Abort,
    alloc: Global,
    spine: &mut Spine<Bitime>,
    hold: &mut Hold<Bitime>,
) -> Result<(), Refusal>
    requires { Contains spine.old.holds hold.old }
    ensures { Contains spine.new.holds hold.new }
{
    read_beyond_two_times(alloc, spine, hold)?;
    assert!(rt; work_by_units(spine, 11)? && is_moved(spine) && spine.copied() == 9);
    Ok(())
}

// A merge that is begun anew by each call would never be whole.
#[test]
fn a_merge_goes_on_from_call_to_call(rt: HostRuntime) -> Result<(), Fail> {
    let (mut spine, mut hold) = Spine::new(rt.alloc(), 0, 0)?;
    let outcome = move_times_by_units(&rt, rt.alloc(), &mut spine, &mut hold);
    spine.release(hold);
    outcome?;
    Ok(())
}

// One batch, which lags behind a reader that sums from (3, 3) on.
fn lag(
    rt: &impl Abort,
    alloc: Global,
    spine: &mut Spine<Bitime>,
    hold: &mut Hold<Bitime>,
) -> Result<(), Refusal>
    requires { Contains spine.old.holds hold.old }
    ensures { Contains spine.new.holds hold.new }
{
    insert(
        spine,
        sevens(alloc, (0, 0), (4, 0), &[(0, 0), (1, 1), (2, 3)])?,
    )?;
    assert!(rt; work(spine, 4)? && spine.copied() == 0);
    let from = Antichain::from_elem(alloc, at((3, 3)));
    let start = Antichain::from_elem(alloc, at((0, 0)));
    spine.advance_hold(alloc, hold, &from, &start)?;
    assert!(rt; !work(spine, 3)? && spine.kept() == 3);
    assert!(rt; work(spine, 4)? && spine.kept() == 1 && spine.copied() == 3);
    Ok(())
}

// A single batch is rewritten, with more fuel than there are updates, once it lags.
#[test]
fn a_batch_that_lags_is_rewritten(rt: HostRuntime) -> Result<(), Fail> {
    let (mut spine, mut hold) = Spine::new(rt.alloc(), 0, 0)?;
    let outcome = lag(&rt, rt.alloc(), &mut spine, &mut hold);
    spine.release(hold);
    outcome?;
    assert!(rt;
        matches!(all_batches(&spine), [batch] if batch.len() == 1 && batch.time(0) == at((3, 3)))
    );
    Ok(())
}

// A batch of one update, and an empty batch that begins and ends where that one ends.
fn insert_an_empty_one(alloc: Global, spine: &mut Spine<Bitime>) -> Result<(), Refusal> {
    insert(spine, seven(alloc, (0, 0), (1, 0), (0, 0), 1)?)?;
    insert(spine, sevens(alloc, (1, 0), (1, 0), &[])?)
}

// A reader that comes while a merge is under way may ask for the boundary inside it. So the merge
// is given up, and the boundary stays.
#[test]
fn a_merge_across_a_hold_taken_later_is_given_up(rt: HostRuntime) -> Result<(), Fail> {
    let (mut spine, hold) = Spine::new(rt.alloc(), 0, 0)?;
    spine.release(hold);
    insert_an_empty_one(rt.alloc(), &mut spine)?;
    assert!(rt; !spine.work(1)? && spine.copied() == 1);
    let late = spine.hold(rt.alloc())?;
    let done = work(&mut spine, 1_000);
    spine.release(late);
    assert!(rt; done? && spine.copied() == 1);
    assert!(rt; matches!(spine.after(&[at((0, 0))]), Some([_, _])));
    assert!(rt; spine.work(1_000)? && spine.kept() == 1);
    assert!(rt; matches!(spine.after(&[at((0, 0))]), Some([_])));
    Ok(())
}

// Two neighbours with a total of 2^63 once a reader from (2, 2) on cannot tell both times apart.
fn insert_large(
    alloc: Global,
    spine: &mut Spine<Bitime>,
    hold: &mut Hold<Bitime>,
) -> Result<(), Refusal>
    requires { Contains spine.old.holds hold.old }
    ensures { Contains spine.new.holds hold.new }
{
    let largest = 9_223_372_036_854_775_807;
    insert(spine, seven(alloc, (0, 0), (1, 0), (0, 0), largest)?)?;
    insert(spine, seven(alloc, (1, 0), (2, 0), (1, 1), 1)?)?;
    let from = Antichain::from_elem(alloc, at((2, 2)));
    spine.advance_hold(alloc, hold, &from, &from)
}

// Whether work tells that a total is too large.
fn is_too_large(spine: &mut Spine<Bitime>) -> bool
    ensures { spine.new.holds ≡ spine.old.holds }
{
    matches!(spine.work(1_000), Err(Refusal::Overflow))
}

// Memory is ample here, so a total that is too large is not told as want of memory. Both batches
// stay.
#[test]
fn work_tells_totals_that_are_large_once_times_move(rt: HostRuntime) -> Result<(), Fail> {
    let (mut spine, mut hold) = Spine::new(rt.alloc(), 0, 0)?;
    let outcome = insert_large(rt.alloc(), &mut spine, &mut hold);
    let first = is_too_large(&mut spine);
    let again = is_too_large(&mut spine);
    spine.release(hold);
    outcome?;
    assert!(rt; first && again && spine.kept() == 2);
    Ok(())
}
