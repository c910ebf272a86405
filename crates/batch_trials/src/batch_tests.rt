//! Batches: sealing and merging succeed if there is memory, a refused seal loses nothing, and the
//! updates are in the right order.
use crate::batches::sealed;
use antichain::Antichain;
use batch::{Batch, BatchReader, Builder, copy_runs, merge, seal_list};
use columns::{Columns, UpdateList};
use lattice::Bitime;
use std::alloc::Global;
use std::ops::Range;
use std::process::Abort;
use std::test::Fail;
use trials::sketches::{Change, at, list};
use update::{Refusal, Update};

// Checks that the batch has these updates, in this order.
pub(crate) fn assert_reads<B: BatchReader<Time = Bitime>>(
    rt: &impl Abort,
    batch: &B,
    want: &[Update<Bitime>],
) {
    assert_eq!(rt; batch.len(), want.len());
    for (i, update) in want.iter().enumerate() {
        assert!(rt; i < batch.len());
        assert!(rt; batch.time(i) == update.time && batch.diff(i) == update.diff);
        assert_eq!(rt; batch.row(i).columns(), update.row.columns());
    }
}

// The order is by row and then by time, unlike in a consolidated list. A row comes before a longer
// row that begins with it.
#[test]
fn batches_are_in_order_of_rows(rt: HostRuntime) -> Result<(), Fail> {
    let given = list(
        rt.alloc(),
        &[
            ((2, 0), &[7, 0], 4),
            ((5, 0), &[7], 2),
            ((0, 5), &[7], 3),
            ((0, 5), &[7], 1),
        ],
    )?;
    let want = list(
        rt.alloc(),
        &[((0, 5), &[7], 4), ((5, 0), &[7], 2), ((2, 0), &[7, 0], 4)],
    )?;
    let batch = sealed(rt.alloc(), (0, 0), (6, 6), &given)?;
    assert_reads(&rt, &batch, &want);
    Ok(())
}

// Two neighbouring batches with interleaved rows, merged.
fn merged(alloc: Global) -> Result<Batch<Bitime>, Refusal> {
    let first = list(alloc, &[((0, 3), &[7], 1), ((3, 9), &[8], 2)])?;
    let second = list(alloc, &[((4, 4), &[6], 1), ((4, 9), &[7], -3)])?;
    let first = sealed(alloc, (0, 0), (4, 4), &first)?;
    let second = sealed(alloc, (4, 4), (8, 8), &second)?;
    let since = Antichain::from_elem(alloc, at((2, 0)));
    merge(&first, &second, since.elements())
}

#[test]
fn merging_takes_memory(rt: HostRuntime) -> Result<(), Fail> {
    let both = match merged(rt.alloc()) {
        Err(Refusal::OutOfMemory) => merged(rt.alloc())?,
        done => done?,
    };
    assert_eq!(rt; both.len(), 4);
    Ok(())
}

// An update and its retraction cancel out.
#[test]
fn what_takes_itself_back_is_gone(rt: HostRuntime) -> Result<(), Fail> {
    let pushed = list(
        rt.alloc(),
        &[((0, 3), &[7], 1), ((3, 0), &[7], 1), ((0, 3), &[7], -1)],
    )?;
    let batch = sealed(rt.alloc(), (0, 0), (4, 4), &pushed)?;
    assert_reads(&rt, &batch, &list(rt.alloc(), &[((3, 0), &[7], 1)])?);
    Ok(())
}

// (3, 9) is inside: it is not before (0, 0), and not at or after (4, 4). But (4, 4) is outside. A
// batch whose total does not fit in 64 bits is refused too.
#[test]
fn strays_and_large_totals_are_refused(rt: HostRuntime) -> Result<(), Fail> {
    let inside = list(rt.alloc(), &[((3, 9), &[7], 1)])?;
    assert!(rt; sealed(rt.alloc(), (0, 0), (4, 4), &inside).is_ok());
    let outside = list(rt.alloc(), &[((4, 4), &[7], 1)])?;
    let refused = sealed(rt.alloc(), (0, 0), (4, 4), &outside);
    assert!(rt; matches!(refused, Err(Refusal::Stray)));
    let large = list(
        rt.alloc(),
        &[((0, 0), &[7], 9223372036854775807), ((0, 0), &[7], 1)],
    )?;
    let refused = sealed(rt.alloc(), (0, 0), (4, 4), &large);
    assert!(rt; matches!(refused, Err(Refusal::Overflow)));
    Ok(())
}

// Memory is ample here, so a total that is too large is not told as want of memory. The updates
// stay in the builder.
#[test]
fn a_seal_of_what_is_passed_tells_large_totals(rt: HostRuntime) -> Result<(), Fail> {
    let large = list(
        rt.alloc(),
        &[((0, 3), &[7], 9223372036854775807), ((0, 3), &[7], 1)],
    )?;
    let mut builder = Builder::of(0, 0, large);
    let lower = Antichain::from_elem(rt.alloc(), at((0, 0)));
    let upper = Antichain::from_elem(rt.alloc(), at((4, 4)));
    let refused = builder.seal_passed(&lower, &upper);
    assert!(rt; matches!(refused, Err(Refusal::Overflow)));
    let refused = builder.seal_passed(&lower, &upper);
    assert!(rt; matches!(refused, Err(Refusal::Overflow)));
    Ok(())
}

// The two batches leave a gap from (4, 4) to (4, 5), in which something may have happened.
#[test]
fn batches_with_a_gap_are_not_merged(rt: HostRuntime) -> Result<(), Fail> {
    let first = sealed(rt.alloc(), (0, 0), (4, 4), &[])?;
    let second = sealed(rt.alloc(), (4, 5), (9, 9), &[])?;
    let since = Antichain::from_elem(rt.alloc(), at((0, 0)));
    assert!(rt;
        matches!(
            merge(&first, &second, since.elements()),
            Err(Refusal::Stray)
        )
    );
    Ok(())
}

// A builder with two updates, of which the frontier {(4, 4)} has passed the first.
fn two_pushed(alloc: Global) -> Result<Builder<Bitime>, Refusal> {
    let pushed = list(alloc, &[((0, 3), &[7], 1), ((5, 5), &[8], 2)])?;
    Ok(Builder::of(0, 0, pushed))
}

// Seals what the frontier has passed, and once more if memory was refused: the first call has lost
// nothing.
fn sealed_passed(
    builder: &mut Builder<Bitime>,
    lower: &Antichain<Bitime>,
    upper: &Antichain<Bitime>,
) -> Result<Batch<Bitime>, Refusal> {
    match builder.seal_passed(lower, upper) {
        Err(Refusal::OutOfMemory) => builder.seal_passed(lower, upper),
        done => done,
    }
}

// The second update waits until everything is passed.
#[test]
fn sealing_what_is_passed_takes_memory(rt: HostRuntime) -> Result<(), Fail> {
    let mut builder = match two_pushed(rt.alloc()) {
        Err(Refusal::OutOfMemory) => two_pushed(rt.alloc())?,
        done => done?,
    };
    let lower = Antichain::from_elem(rt.alloc(), at((0, 0)));
    let upper = Antichain::from_elem(rt.alloc(), at((4, 4)));
    let first = sealed_passed(&mut builder, &lower, &upper)?;
    assert_eq!(rt; first.len(), 1);
    assert!(rt; first.diff(0) == 1);
    let rest = sealed_passed(&mut builder, &upper, &Antichain::new(rt.alloc()))?;
    assert_eq!(rt; rest.len(), 1);
    assert!(rt; rest.diff(0) == 2);
    Ok(())
}

// The batch of a list that stays, between (0, 0) and (6, 6).
fn sealed_list(alloc: Global, list: &UpdateList<Bitime>) -> Result<Batch<Bitime>, Refusal> {
    let lower = Antichain::from_elem(alloc, at((0, 0)));
    let upper = Antichain::from_elem(alloc, at((6, 6)));
    seal_list(alloc, 0, 0, list, &lower, &upper)
}

// These changes column by column.
fn packed(alloc: Global, changes: &[Change]) -> Result<UpdateList<Bitime>, Refusal> {
    let mut columns = Columns::new(alloc);
    columns.append(&list(alloc, changes)?)?;
    match UpdateList::packed(alloc, columns) {
        Ok(list) => Ok(list),
        Err(_columns) => Err(Refusal::OutOfMemory),
    }
}

// These changes, in the order of a batch.
const ORDERED: &[Change] = &[((0, 5), &[7], 4), ((5, 0), &[7], 2), ((2, 0), &[7, 0], 4)];

// The same in another order, one of them in two parts.
const MIXED: &[Change] = &[
    ((2, 0), &[7, 0], 4),
    ((5, 0), &[7], 2),
    ((0, 5), &[7], 3),
    ((0, 5), &[7], 1),
];

// The batches of a plain list and of columns.
fn two_lists(alloc: Global, changes: &[Change]) -> Result<(Batch<Bitime>, Batch<Bitime>), Refusal> {
    let plain: UpdateList<Bitime> = list(alloc, changes)?.into();
    let columns = packed(alloc, changes)?;
    Ok((sealed_list(alloc, &plain)?, sealed_list(alloc, &columns)?))
}

// In either order and form they are sealed as one batch.
#[test]
fn sealing_lists_that_stay_takes_memory(rt: HostRuntime) -> Result<(), Fail> {
    for changes in [ORDERED, MIXED] {
        let (first, second) = match two_lists(rt.alloc(), changes) {
            Err(Refusal::OutOfMemory) => two_lists(rt.alloc(), changes)?,
            done => done?,
        };
        for batch in [&first, &second] {
            assert_eq!(rt; batch.len(), 3);
            assert!(rt; batch.diff(0) == 4 && batch.diff(1) == 2 && batch.diff(2) == 4);
            assert!(rt; batch.time(0) == at((0, 5)) && batch.time(1) == at((5, 0)));
            assert_eq!(rt; batch.row(2).columns(), [7, 0].as_slice());
        }
    }
    Ok(())
}

// How both forms of these changes are refused.
fn refused(alloc: Global, changes: &[Change], with: &Refusal) -> Result<bool, Refusal> {
    let plain: UpdateList<Bitime> = list(alloc, changes)?.into();
    let columns = packed(alloc, changes)?;
    let first = sealed_list(alloc, &plain);
    let second = sealed_list(alloc, &columns);
    Ok(matches!(first, Err(by) if by == *with) && matches!(second, Err(by) if by == *with))
}

// Memory is ample here, so a total that is too large is not told as want of memory. A difference of
// 0 is not sealed.
#[test]
fn lists_that_stay_are_refused_as_others_are(rt: HostRuntime) -> Result<(), Fail> {
    let outside: &[Change] = &[((6, 6), &[7], 1)];
    assert!(rt; refused(rt.alloc(), outside, &Refusal::Stray)?);
    let large: &[Change] = &[((0, 0), &[7], 9223372036854775807), ((0, 0), &[7], 1)];
    assert!(rt; refused(rt.alloc(), large, &Refusal::Overflow)?);
    let nothing: &[Change] = &[((0, 0), &[7], 0)];
    let (plain, columns) = two_lists(rt.alloc(), nothing)?;
    assert!(rt; plain.len() == 0 && columns.len() == 0);
    Ok(())
}

// Of four rows two begin with the key 7, and none begins with the key 8.
#[test]
fn readers_go_on_from_where_they_stand(rt: HostRuntime) -> Result<(), Fail> {
    let pushed = list(
        rt.alloc(),
        &[
            ((0, 0), &[6], 1),
            ((0, 0), &[7], 1),
            ((0, 0), &[7, 0], 1),
            ((0, 0), &[9], 1),
        ],
    )?;
    let batch = sealed(rt.alloc(), (0, 0), (1, 1), &pushed)?;
    assert_eq!(rt; batch.len(), 4);
    let start = batch.seek(0, &[7]);
    let end = batch.seek_past(start, &[7]);
    assert!(rt; start == 1 && end == 3);
    assert_eq!(rt; batch.seek(end, &[8]), 3);
    assert!(rt; batch.compare_key(3, &[8]).is_gt());
    Ok(())
}

// A batch of four updates, of which two have one row.
fn three_rows(alloc: Global) -> Result<Batch<Bitime>, Refusal> {
    let pushed = list(
        alloc,
        &[
            ((1, 0), &[7, 1], -3),
            ((0, 0), &[8], 4),
            ((2, 5), &[7, 2], 1),
            ((0, 0), &[7, 1], 2),
        ],
    )?;
    sealed(alloc, (0, 0), (6, 6), &pushed)
}

// What stands in one list of a batch stands beside what stands at the same place of another.
#[test]
fn lists_of_a_batch_fit_one_another(rt: HostRuntime) -> Result<(), Fail> {
    let batch = three_rows(rt.alloc())?;
    let times = [at((0, 0)), at((1, 0)), at((2, 5)), at((0, 0))];
    assert!(rt; batch.times() == times.as_slice());
    assert!(rt; batch.diffs() == [2i64, -3, 1, 4].as_slice());
    assert!(rt; batch.starts() == [0usize, 2, 3].as_slice());
    Ok(())
}

// A walk by runs gives all updates, each with the row of its run.
#[test]
fn batches_are_read_run_by_run(rt: HostRuntime) -> Result<(), Fail> {
    let batch = three_rows(rt.alloc())?;
    assert_eq!(rt; batch.runs(), 3);
    assert!(rt; batch.run_start(0) == 0 && batch.run_start(1) == 2);
    assert!(rt; batch.run_start(2) == 3 && batch.run_start(3) == 4);
    let mut copies = Vec::new(rt.alloc());
    copy_runs(&mut copies, &batch, 0..batch.runs())?;
    assert_reads(&rt, &batch, &copies);
    Ok(())
}

// Checks which runs a key has: by two gallops from the first run, and by a search of all runs.
fn assert_found(rt: &impl Abort, batch: &Batch<Bitime>, key: &[i64], want: Range<usize>) {
    let start = batch.seek_run(0, key);
    let end = batch.seek_past_run(start, key);
    assert!(rt; start == want.start && end == want.end);
    let runs = batch.key_runs(key);
    assert!(rt; runs.start == want.start && runs.end == want.end);
}

// Keys before the rows, in them, between them and behind them.
#[test]
fn keys_are_found_by_runs(rt: HostRuntime) -> Result<(), Fail> {
    let batch = three_rows(rt.alloc())?;
    assert_found(&rt, &batch, &[6], 0..0);
    assert_found(&rt, &batch, &[7], 0..2);
    assert_found(&rt, &batch, &[7, 2], 1..2);
    assert_found(&rt, &batch, &[7, 3], 2..2);
    assert_found(&rt, &batch, &[8], 2..3);
    assert_found(&rt, &batch, &[9], 3..3);
    Ok(())
}
