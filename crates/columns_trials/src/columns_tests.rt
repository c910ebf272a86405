//! Columns: pushes succeed if there is memory, a refused one loses nothing, and each row is stored
//! once for its neighbours.
ghost use Rattle.std.specs.Prelude.{◌<◌, length};

use columns::{Columns, UpdateList};
use lattice::Bitime;
use std::alloc::Global;
use std::cmp::Ordering;
use std::test::Fail;
use trials::sketches::list;
use update::{Refusal, Update};

// Pushes an update, and once more if memory was refused.
fn push(columns: &mut Columns<Bitime>, update: &Update<Bitime>) -> Result<(), Refusal> {
    match columns.push(update) {
        Err(Refusal::OutOfMemory) => columns.push(update),
        done => done,
    }
}

// Six updates of three rows, of which the last is shorter.
fn six(alloc: Global) -> Result<Vec<Update<Bitime>>, Refusal> {
    list(
        alloc,
        &[
            ((0, 0), &[7, 1], 1),
            ((0, 3), &[7, 1], -2),
            ((1, 1), &[7, 1], 4),
            ((0, 0), &[7, 2], 8),
            ((0, 0), &[9], 16),
            ((2, 2), &[9], 32),
        ],
    )
}

// The same, and once more if memory was refused.
fn six_again(alloc: Global) -> Result<Vec<Update<Bitime>>, Refusal> {
    match six(alloc) {
        Err(Refusal::OutOfMemory) => six(alloc),
        done => done,
    }
}

// The updates in columns, in the order in which they were pushed.
fn pushed(alloc: Global) -> Result<Columns<Bitime>, Refusal> {
    let mut columns = Columns::new(alloc);
    for update in &six_again(alloc)? {
        push(&mut columns, update)?;
    }
    columns.shrink();
    Ok(columns)
}

// Four updates in columns. The first two rows are shorter than the first one of the six or equal to
// it, the third is longer, and the last has a larger number.
fn four(alloc: Global) -> Result<Columns<Bitime>, Refusal> {
    let updates = list(
        alloc,
        &[
            ((0, 0), &[7], 1),
            ((0, 0), &[7, 1], 1),
            ((0, 0), &[7, 1, 0], 1),
            ((0, 0), &[8], 1),
        ],
    )?;
    let mut columns = Columns::new(alloc);
    for update in &updates {
        push(&mut columns, update)?;
    }
    Ok(columns)
}

// Each update has the time, the difference and the row that was pushed with it.
#[test]
fn pushing_takes_memory(rt: HostRuntime) -> Result<(), Fail> {
    let columns = pushed(rt.alloc())?;
    let want = six_again(rt.alloc())?;
    assert_eq!(rt; columns.len(), want.len());
    for (i, update) in want.iter().enumerate() {
        assert!(rt; i < columns.len());
        assert!(rt; columns.time(i) == update.time && columns.diff(i) == update.diff);
        assert_eq!(rt; columns.row(i).columns(), update.row.columns());
    }
    Ok(())
}

// A row is stored for the first of its updates alone, and found by the number of its run.
#[test]
fn rows_are_stored_once(rt: HostRuntime) -> Result<(), Fail> {
    let columns = pushed(rt.alloc())?;
    assert!(rt; columns.starts() == [0usize, 3, 4].as_slice());
    assert!(rt; columns.runs() == 3 && columns.run_row(1).columns() == [7i64, 2].as_slice());
    assert!(rt; columns.diffs() == [1i64, -2, 4, 8, 16, 32].as_slice());
    assert!(rt; columns.times().len() == 6);
    Ok(())
}

// A run begins where the one before it ends, and the number behind the last run stands at the end.
#[test]
fn runs_lie_one_behind_another(rt: HostRuntime) -> Result<(), Fail> {
    let columns = pushed(rt.alloc())?;
    assert!(rt; columns.run_start(0) == 0 && columns.run_start(1) == 3);
    assert!(rt; columns.run_start(2) == 4 && columns.run_start(3) == 6);
    assert!(rt; columns.runs() == 3);
    assert!(rt; columns.run_row(0).columns() == [7i64, 1].as_slice());
    assert!(rt; columns.run_row(2).columns() == [9i64].as_slice());
    Ok(())
}

// A key of one column has all rows that begin with it. A shorter row is compared whole.
#[test]
fn keys_are_compared_in_place(rt: HostRuntime) -> Result<(), Fail> {
    let columns = pushed(rt.alloc())?;
    assert!(rt; columns.len() == 6);
    assert!(rt; columns.compare_key(3, &[7]) == Ordering::Equal);
    assert!(rt; columns.compare_key(3, &[7, 1]) == Ordering::Greater);
    assert!(rt; columns.compare_key(4, &[9, -5]) == Ordering::Less);
    Ok(())
}

// A run is found from any number: its own, the one before it, others, and one that no run has.
#[test]
fn runs_are_found_from_any_number(rt: HostRuntime) -> Result<(), Fail> {
    let columns = pushed(rt.alloc())?;
    assert!(rt; columns.len() == 6);
    assert!(rt; columns.run_near(2, 0) == 0 && columns.run_near(3, 1) == 1);
    assert!(rt; columns.run_near(3, 0) == 1 && columns.run_near(4, 1) == 2);
    assert!(rt; columns.run_near(5, 0) == 2 && columns.run_near(0, 2) == 0);
    assert!(rt; columns.run_near(2, 3) == 0 && columns.run_near(5, usize::MAX) == 2);
    Ok(())
}

// So is a row.
#[test]
fn rows_are_found_from_any_number(rt: HostRuntime) -> Result<(), Fail> {
    let columns = pushed(rt.alloc())?;
    assert!(rt; columns.len() == 6);
    assert!(rt; columns.row_near(3, 1).columns() == [7i64, 2].as_slice());
    assert!(rt; columns.row_near(3, 0).columns() == [7i64, 2].as_slice());
    assert!(rt; columns.row_near(5, 0).columns() == [9i64].as_slice());
    assert!(rt; columns.row_near(0, usize::MAX).columns() == [7i64, 1].as_slice());
    Ok(())
}

// Pushes an update with the row of the last one, and once more if memory was refused.
fn push_again(columns: &mut Columns<Bitime>, time: Bitime, diff: i64) -> Result<(), Refusal>
    requires { 0 < length columns.old }
{
    match columns.push_again(time, diff) {
        Err(Refusal::OutOfMemory) => columns.push_again(time, diff),
        done => done,
    }
}

// An update that is pushed again has the row of the last one, and starts no run. A row of another
// number, or a longer one, is not that row.
#[test]
fn pushing_again_takes_memory(rt: HostRuntime) -> Result<(), Fail> {
    let mut columns = pushed(rt.alloc())?;
    assert!(rt; columns.len() == 6);
    let time = columns.time(1);
    push_again(&mut columns, time, 64)?;
    assert!(rt; columns.len() == 7);
    assert!(rt; columns.time(6) == time && columns.diff(6) == 64);
    assert!(rt; columns.starts() == [0usize, 3, 4].as_slice());
    assert!(rt; columns.has_row(6, 2, &[9]) && columns.has_row(6, usize::MAX, &[9]));
    assert!(rt; !columns.has_row(6, 2, &[7]) && !columns.has_row(6, 2, &[9, 0]));
    assert!(rt; columns.has_row(0, 2, &[7, 1]) && !columns.has_row(0, 0, &[7, 2]));
    Ok(())
}

// A row comes behind its own beginning. In rows of several widths the first other column decides.
#[test]
fn rows_of_two_lists_are_compared_in_place(rt: HostRuntime) -> Result<(), Fail> {
    let columns = pushed(rt.alloc())?;
    let others = four(rt.alloc())?;
    assert!(rt; columns.len() == 6 && others.len() == 4);
    assert!(rt; columns.compare_rows(0, 0, &others, 0, 0) == Ordering::Greater);
    assert!(rt; columns.compare_rows(0, 0, &others, 1, 0) == Ordering::Equal);
    assert!(rt; columns.compare_rows(0, 0, &others, 2, 9) == Ordering::Less);
    assert!(rt; columns.compare_rows(3, 0, &others, 2, 2) == Ordering::Greater);
    assert!(rt; columns.compare_rows(2, 2, &others, 3, 0) == Ordering::Less);
    assert!(rt; columns.compare_rows(5, 2, &others, 3, 3) == Ordering::Greater);
    Ok(())
}

// The six updates in a list of columns.
fn packed(alloc: Global) -> Result<UpdateList<Bitime>, Refusal> {
    match UpdateList::packed(alloc, pushed(alloc)?) {
        Ok(list) => Ok(list),
        Err(_columns) => Err(Refusal::OutOfMemory),
    }
}

// Whether a list has the six updates.
fn is_six(rt: &HostRuntime, list: &UpdateList<Bitime>) -> Result<bool, Fail> {
    let want = six_again(rt.alloc())?;
    let have = list.to_vec(rt.alloc())?;
    let mut same = list.len() == want.len() && have.len() == want.len();
    for (i, update) in want.iter().enumerate() {
        same = same && i < list.len() && list.time(i) == update.time;
    }
    for (have, update) in have.iter().zip(want.iter()) {
        same = same && have.diff == update.diff && have.row == update.row;
    }
    Ok(same)
}

// A list has the same updates in both forms, and so have its copies.
#[test]
fn lists_are_the_same_in_both_forms(rt: HostRuntime) -> Result<(), Fail> {
    let alloc = rt.alloc();
    let plain = UpdateList::from(six_again(alloc)?);
    let mut packed = packed(alloc)?;
    assert!(rt; is_six(&rt, &plain)? && is_six(&rt, &packed)?);
    assert!(rt; is_six(&rt, &plain.copy(alloc)?)? && is_six(&rt, &packed.copy(alloc)?)?);
    let mut both = Columns::new(alloc);
    plain.append_to(&mut both)?;
    packed.append_to(&mut both)?;
    assert!(rt; both.runs() == 6 && both.len() == 12);
    let again = UpdateList::from(packed.take_vec(alloc)?);
    assert!(rt; is_six(&rt, &again)?);
    Ok(())
}

// A list is moved behind what a list of columns has, whether it had something or nothing.
#[test]
fn lists_move_behind_what_is_there(rt: HostRuntime) -> Result<(), Fail> {
    let alloc = rt.alloc();
    let mut moved = Columns::new(alloc);
    packed(alloc)?.move_to(&mut moved)?;
    assert!(rt; moved.len() == 6 && moved.runs() == 3);
    packed(alloc)?.move_to(&mut moved)?;
    UpdateList::from(six_again(alloc)?).move_to(&mut moved)?;
    assert!(rt; moved.len() == 18 && moved.runs() == 9);
    let mut plain = Columns::new(alloc);
    UpdateList::from(six_again(alloc)?).move_to(&mut plain)?;
    let Ok(packed) = UpdateList::packed(alloc, plain) else {
        panic!(rt; "the list wants memory")
    };
    assert!(rt; is_six(&rt, &packed)?);
    Ok(())
}

// The columns of a row are appended to a list of numbers.
#[test]
fn rows_are_appended_to_a_list(rt: HostRuntime) -> Result<(), Fail> {
    let columns = pushed(rt.alloc())?;
    let mut list = Vec::new(rt.alloc());
    let mut run = 0;
    for i in 0..columns.len() {
        run = columns.run_near(i, run);
        let before = list.len();
        let width = columns.append_row(i, run, &mut list)?;
        let row = columns.row(i);
        assert!(rt; row.columns() == &list[before..] && width == row.width());
    }
    Ok(())
}
