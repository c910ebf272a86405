//! The last read of a view, and how a read goes on from it.
//!
//! What a view captured is kept column by column ([`Columns`]), since it is the longest list on a
//! board. A read copies the updates that it adds up, part by part, and folds each part into a bag.
//! So it takes memory for two bags and not for all that was captured. Updates of one row that lie
//! next to each other, or one apart, become one on the way, so what cancels there is not sorted.
//!
//! A read remembers its time, its bag, how many captured updates it knows, and the positions of
//! those that are not at or before its time. A read at the same time or a later one looks only at
//! those positions and at what was captured since. It adds the updates that are now at or before
//! its time to the bag. So a read after each change costs as much as the bag is long, however much
//! was captured. A read at any other time sums anew. Each read becomes the last one.
ghost use Rattle.std.specs.Prelude.{◌≡◌, ◌≤◌, ◌<◌, ◌⊎◌, ◌-◌, ◌++◌, ◌∷◌, List, [], Some, IfErr, IfOk, OnErr, OnOk, IfSome, IsSomeAnd, IsTrue, false, length, map, take, drop, slice_get};
ghost use Rattle.std.specs.List.{All, filter, flat_map};
ghost use Rattle.update.specs.Refusals.{OnlyMemory};
ghost use Rattle.update.specs.Bags.{Alike, IsBag, entry_of};
ghost use Rattle.update.specs.Updates.{as_of, entry};
ghost use Rattle.update.specs.declared.change.Update.{Update};
ghost use Rattle.update.specs.declared.refusal.Refusal.TheVariants.{OutOfMemory, Overflow};
ghost use Rattle.views.specs.Views.{update_at, is_later_at, later_below, IsReadOf, IsSumRefusal};

use columns::Columns;
use lattice::Minimum;
use std::alloc::Global;
use std::ops::Range;
use update::{Bag, Entries, Refusal, Update};

// A read that starts from nothing adds up at least so many updates at a time: so many are sorted in
// the cache. A read that goes on asks for room for so many at once.
const PART: usize = 4096;

// An update that is added up is compared with so many before it. A reduction gives at each time the
// new row of a key and takes the old one back, so a row and its end lie one apart, in one order or
// the other.
const NEAR: usize = 2;

// A read: its time, its bag, and what it knows of the captured updates.
#[derive(Drop)]
pub(crate) struct LastRead<T> {
    pub(crate) time: T,
    pub(crate) bag: Bag,
    // How many of the captured updates it knows, counted from the first.
    pub(crate) known: usize,
    // The positions of the known updates that are not at or before its time.
    pub(crate) later: Vec<usize>,
}

// A read that starts from nothing, part by part. If a sum on the way is too large, then all is
// added up at once, so that the order of the updates does not matter.
pub(crate) fn read_anew<T: Minimum>(
    alloc: Global,
    captured: &Columns<T>,
    t: T,
) -> Result<LastRead<T>, Refusal>
    ensures read { IfOk result (λ r.
        IsReadOf T.times captured.now r.time r.bag r.known r.later.items) }
    ensures bag { IfOk result (λ r. IsBag r.bag) }
    ensures sum { IfOk result (λ r. Alike r.bag (as_of T.times t captured.now)) }
    ensures refused { IfErr result (IsSumRefusal T.times captured.now t) }
{
    match read_in_parts(alloc, captured, t) {
        Err(Refusal::Overflow) => read_at_once(alloc, captured, t),
        read => read,
    }
}

// A read that adds up part by part. A part is as long as the bag so far, or longer. So the copies
// of the bag are no longer together than what was captured, and a read needs no list of all
// updates.
fn read_in_parts<T: Minimum>(
    alloc: Global,
    captured: &Columns<T>,
    t: T,
) -> Result<LastRead<T>, Refusal>
    ensures read { IfOk result (λ r.
        IsReadOf T.times captured.now r.time r.bag r.known r.later.items) }
    ensures bag { IfOk result (λ r. IsBag r.bag) }
    ensures sum { IfOk result (λ r. Alike r.bag (as_of T.times t captured.now)) }
    ensures refused { IfErr result (λ refusal. (refusal ≡ OutOfMemory) ⊎ (refusal ≡ Overflow)) }
{
    let mut read = nothing_read(alloc, t)?;
    while read.known < captured.len() {
        let until = end_of_part(read.known, read.bag.len(), captured.len());
        read_part(alloc, captured, &mut read, until)?;
    }
    Ok(read)
}

// A read of no updates.
fn nothing_read<T: Minimum>(alloc: Global, t: T) -> Result<LastRead<T>, Refusal>
    ensures read { IfOk result (λ r. (us : List (Update T))
        → IsReadOf T.times us r.time r.bag r.known r.later.items) }
    ensures bag { IfOk result (λ r. IsBag r.bag) }
    ensures time { IfOk result (λ r. r.time ≡ t) }
    ensures refused { IfErr result (λ refusal. (refusal ≡ OutOfMemory) ⊎ (refusal ≡ Overflow)) }
{
    let bag = Entries::new(alloc).into_bag()?;
    Ok(LastRead {
        time: t,
        bag,
        known: 0,
        later: Vec::new(alloc),
    })
}

// Where the next part ends.
fn end_of_part(known: usize, rows: usize, captured: usize) -> usize
    requires { known < captured }
    ensures onward { known < result }
    ensures within { result ≤ captured }
{
    captured.min(known.saturating_add(rows.max(PART)))
}

// Goes on with a read, from the updates that it knows up to another one.
fn read_part<T: Minimum>(
    alloc: Global,
    captured: &Columns<T>,
    read: &mut LastRead<T>,
    until: usize,
) -> Result<(), Refusal>
    requires read { IsReadOf T.times captured.now
        read.old.time read.old.bag read.old.known read.old.later.items }
    requires onward { read.old.known ≤ until }
    requires within { until ≤ length captured.now }
    ensures read { OnOk result (IsReadOf T.times captured.now
        read.new.time read.new.bag read.new.known read.new.later.items) }
    ensures bag { OnOk result (IsBag read.new.bag) }
    ensures time { read.new.time ≡ read.old.time }
    ensures known { OnOk result (read.new.known ≡ until) }
    ensures refused { IfErr result (λ refusal. (refusal ≡ OutOfMemory) ⊎ (refusal ≡ Overflow)) }
{
    let mut arrived = Vec::with_capacity(alloc, until - read.known)?;
    push_arrived(&mut arrived, captured, read.known..until, &read.time)?;
    push_later(&mut read.later, captured, read.known..until, &read.time)?;
    read.bag = read.bag.with(&arrived)?;
    read.known = until;
    Ok(())
}

// A read that adds up all at once.
fn read_at_once<T: Minimum>(
    alloc: Global,
    captured: &Columns<T>,
    t: T,
) -> Result<LastRead<T>, Refusal>
    ensures read { IfOk result (λ r.
        IsReadOf T.times captured.now r.time r.bag r.known r.later.items) }
    ensures bag { IfOk result (λ r. IsBag r.bag) }
    ensures sum { IfOk result (λ r. Alike r.bag (as_of T.times t captured.now)) }
    ensures refused { IfErr result (IsSumRefusal T.times captured.now t) }
{
    let mut later = Vec::new(alloc);
    push_later(&mut later, captured, 0..captured.len(), &t)?;
    let bag = sum_captured(alloc, captured, captured.len() - later.len(), t)?;
    Ok(LastRead {
        time: t,
        bag,
        known: captured.len(),
        later,
    })
}

// What was captured, summed to a time. `room` is how many updates are at or before the time; any
// other number costs memory or time and changes no sum.
fn sum_captured<T: Minimum>(
    alloc: Global,
    captured: &Columns<T>,
    room: usize,
    t: T,
) -> Result<Bag, Refusal>
    ensures bag { IfOk result IsBag }
    ensures sum { IfOk result (λ bag. Alike bag (as_of T.times t captured.now)) }
    ensures refused { IfErr result (IsSumRefusal T.times captured.now t) }
{
    let mut arrived = Vec::with_capacity(alloc, room)?;
    push_arrived(&mut arrived, captured, 0..captured.len(), &t)?;
    let none = Entries::new(alloc).into_bag()?;
    let bag = none.with(&arrived)?;
    Ok(bag)
}

// A read that goes on from an earlier read, whose time is at or before its own.
pub(crate) fn read_on<T: Minimum>(
    alloc: Global,
    captured: &Columns<T>,
    last: &LastRead<T>,
    t: T,
) -> Result<LastRead<T>, Refusal>
    requires last { IsReadOf T.times captured.now
        last.now.time last.now.bag last.now.known last.now.later.items }
    requires onward { IsTrue (T.times.below last.now.time t) }
    ensures read { IfOk result (λ r.
        IsReadOf T.times captured.now r.time r.bag r.known r.later.items) }
    ensures bag { IfOk result (λ r. IsBag r.bag) }
    ensures sum { IfOk result (λ r. Alike r.bag (as_of T.times t captured.now)) }
    ensures refused { IfErr result (IsSumRefusal T.times captured.now t) }
{
    let arrived = arrived_since(alloc, captured, last, &t)?;
    let later = later_since(alloc, captured, last, &t)?;
    let bag = last.bag.with(&arrived)?;
    Ok(LastRead {
        time: t,
        bag,
        known: captured.len(),
        later,
    })
}

// Copies the updates at or before a time that are missing from the bag of an earlier read. Those of
// one row become one where they lie close together.
fn arrived_since<T: Minimum>(
    alloc: Global,
    captured: &Columns<T>,
    last: &LastRead<T>,
    t: &T,
) -> Result<Vec<Update<T>>, Refusal>
    requires { IsReadOf T.times captured.now
        last.now.time last.now.bag last.now.known last.now.later.items }
    ensures arrived { IfOk result (λ arrived. Alike (map entry arrived.items)
        (flat_map (λ k. as_of T.times t.now (update_at captured.now k)) last.now.later.items
        ++ as_of T.times t.now (drop last.now.known captured.now))) }
    ensures refused { OnlyMemory result }
{
    let mut arrived = arrived_at(alloc, captured, &last.later, t)?;
    arrived.reserve(PART.min(captured.len().saturating_sub(last.known)))?;
    push_arrived(&mut arrived, captured, last.known..captured.len(), t)?;
    Ok(arrived)
}

// The positions of all updates that are not at or before a time, found from those of an earlier
// read.
fn later_since<T: Minimum>(
    alloc: Global,
    captured: &Columns<T>,
    last: &LastRead<T>,
    t: &T,
) -> Result<Vec<usize>, Refusal>
    requires last { IsReadOf T.times captured.now
        last.now.time last.now.bag last.now.known last.now.later.items }
    requires onward { IsTrue (T.times.below last.now.time t.now) }
    ensures later { IfOk result (λ later. later.items
        ≡ later_below T.times t.now captured.now (length captured.now)) }
    ensures refused { OnlyMemory result }
{
    let mut later = still_later(alloc, captured, &last.later, t)?;
    push_later(&mut later, captured, last.known..captured.len(), t)?;
    Ok(later)
}

// Copies the updates at these positions that are at or before a time. Those of one row become one
// where they lie close together.
fn arrived_at<T: Minimum>(
    alloc: Global,
    captured: &Columns<T>,
    positions: &[usize],
    t: &T,
) -> Result<Vec<Update<T>>, Refusal>
    requires { All (λ k. k < length captured.now) positions.now }
    ensures arrived { IfOk result (λ arrived. Alike (map entry arrived.items)
        (flat_map (λ k. as_of T.times t.now (update_at captured.now k)) positions.now)) }
    ensures refused { OnlyMemory result }
{
    let mut arrived = Vec::new(alloc);
    let mut run = 0;
    for position in positions {
        run = push_if_arrived(&mut arrived, captured, *position, run, t)?;
    }
    Ok(arrived)
}

// Appends copies of the updates of a part that are at or before a time. Those of one row become one
// where they lie close together.
fn push_arrived<T: Minimum>(
    arrived: &mut Vec<Update<T>>,
    captured: &Columns<T>,
    part: Range<usize>,
    t: &T,
) -> Result<(), Refusal>
    requires ordered { part.start ≤ part.end }
    requires within { part.end ≤ length captured.now }
    ensures more { OnOk result (Alike (map entry arrived.new.items) (map entry arrived.old.items
        ++ as_of T.times t.now (drop part.start (take part.end captured.now)))) }
    ensures refused { OnlyMemory result }
{
    let mut run = 0;
    for position in part.start..part.end {
        run = push_if_arrived(arrived, captured, position, run, t)?;
    }
    Ok(())
}

// Appends a copy of the update at a position if it is at or before a time. If one near the end has
// the same row, then it is added to that. The search for its run begins at `near`. Returns where
// the next search begins.
fn push_if_arrived<T: Minimum>(
    arrived: &mut Vec<Update<T>>,
    captured: &Columns<T>,
    position: usize,
    near: usize,
    t: &T,
) -> Result<usize, Refusal>
    requires { position < length captured.now }
    ensures more { OnOk result (Alike (map entry arrived.new.items) (map entry arrived.old.items
        ++ as_of T.times t.now (update_at captured.now position))) }
    ensures refused { OnlyMemory result }
{
    if !captured.time(position).less_equal(t) {
        return Ok(near);
    }
    let run = captured.run_near(position, near);
    if is_added(arrived, captured, position, run) {
        return Ok(run);
    }
    arrived.push(captured.copy(position, run))?;
    Ok(run)
}

// Adds the update at a position to one near the end of these, if that has its row, and the sum of
// the differences is a 64-bit number. The answer is whether it was added; if not, then nothing has
// changed.
fn is_added<T: Minimum>(
    arrived: &mut Vec<Update<T>>,
    captured: &Columns<T>,
    position: usize,
    run: usize,
) -> bool
    requires { position < length captured.now }
    ensures added { IsTrue result → IsSomeAnd (slice_get captured.now position) (λ u.
        Alike (map entry arrived.new.items) (map entry arrived.old.items ++ entry u ∷ [])) }
    ensures same { result ≡ false → arrived.new.items ≡ arrived.old.items }
{
    let Some(place) = find_near_end(arrived.as_slice(), captured, position, run) else {
        return false;
    };
    add_at(arrived, place, captured.diff(position))
}

// The place of an update near the end of these that has the row of the update at a position.
fn find_near_end<T: Minimum>(
    arrived: &[Update<T>],
    captured: &Columns<T>,
    position: usize,
    run: usize,
) -> Option<usize>
    requires { position < length captured.now }
    ensures { IfSome result (λ place. IsSomeAnd (slice_get arrived.now place) (λ x.
        IsSomeAnd (slice_get captured.now position) (λ u. u.row ≡ x.row))) }
{
    let mut place = arrived.len();
    let first = place.saturating_sub(NEAR);
    while place > first {
        place -= 1;
        if captured.has_row(position, run, arrived[place].row.columns()) {
            return Some(place);
        }
    }
    None
}

// Adds to the difference of the update at a place, if the sum is a 64-bit number. An update whose
// difference would be 0 goes. The answer is whether it was added; if not, then nothing has changed.
fn add_at<T: Minimum>(arrived: &mut Vec<Update<T>>, place: usize, diff: i64) -> bool
    requires { place < length arrived.old.items }
    ensures added { IsTrue result → IsSomeAnd (slice_get arrived.old.items place) (λ x.
        Alike (map entry arrived.new.items)
        (map entry arrived.old.items ++ entry_of x.row diff ∷ [])) }
    ensures same { result ≡ false → arrived.new.items ≡ arrived.old.items }
{
    let Some(sum) = arrived[place].diff.checked_add(diff) else {
        return false;
    };
    if sum == 0 {
        arrived.remove(place);
    } else {
        arrived[place].diff = sum;
    }
    true
}

// Whether the update at a position is not at or before a time.
fn is_later_at<T: Minimum>(captured: &Columns<T>, position: usize, t: &T) -> bool
    requires { position < length captured.now }
    ensures { result ≡ is_later_at T.times t.now captured.now position }
{
    !captured.time(position).less_equal(t)
}

// Keeps the positions at which the update is still not at or before a time.
fn still_later<T: Minimum>(
    alloc: Global,
    captured: &Columns<T>,
    positions: &[usize],
    t: &T,
) -> Result<Vec<usize>, Refusal>
    requires { All (λ k. k < length captured.now) positions.now }
    ensures later { IfOk result (λ later. later.items
        ≡ filter (is_later_at T.times t.now captured.now) positions.now) }
    ensures refused { OnlyMemory result }
{
    let mut later = Vec::new(alloc);
    for position in positions {
        if is_later_at(captured, *position, t) {
            later.push(*position)?;
        }
    }
    Ok(later)
}

// Appends the positions of a part at which the update is not at or before a time.
fn push_later<T: Minimum>(
    later: &mut Vec<usize>,
    captured: &Columns<T>,
    part: Range<usize>,
    t: &T,
) -> Result<(), Refusal>
    requires ordered { part.start ≤ part.end }
    requires within { part.end ≤ length captured.now }
    requires before { later.old.items ≡ later_below T.times t.now captured.now part.start }
    ensures later { OnOk result (later.new.items
        ≡ later_below T.times t.now captured.now part.end) }
    ensures refused { OnlyMemory result }
{
    for position in part.start..part.end {
        if is_later_at(captured, position, t) {
            later.push(position)?;
        }
    }
    Ok(())
}
