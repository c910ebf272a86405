//! Views: what was captured is summed at any time, in whatever order the reads come, and giving up
//! times changes no later sum. A read that wrongly went on from the last one would answer a row too
//! many or too few here.
use lattice::Bitime;
use std::alloc::{AllocError, Global};
use std::test::Fail;
use trials::sketches::{at, list};
use update::{Refusal, Times};
use views::View;

// Four changes of two rows, at times of which (0, 3) and (1, 1) cannot be compared.
const CHANGES: &[((u64, u64), &[i64], i64)] = &[
    ((0, 0), &[7], 1),
    ((0, 3), &[7], -2),
    ((1, 1), &[8], 4),
    ((3, 0), &[7], 5),
];

// A frontier of one time.
fn times(alloc: Global, time: (u64, u64)) -> Result<Times<Bitime>, AllocError> {
    let mut times = Vec::new(alloc);
    times.push(at(time))?;
    Ok(times.into())
}

// A view that captured the changes.
fn captured(alloc: Global) -> Result<View<Bitime>, Refusal> {
    let mut view = View::new(alloc, times(alloc, (0, 0))?);
    view.append(&list(alloc, CHANGES)?.into())?;
    Ok(view)
}

// Captures one change more, in a list that may move.
fn captured_more(alloc: Global, view: &mut View<Bitime>) -> Result<(), Refusal> {
    let mut more = list(alloc, &[((1, 2), &[7], 10)])?.into();
    view.capture(&mut more)
}

// Whether the view's rows at a time are printed as this text.
fn reads(
    alloc: Global,
    view: &mut View<Bitime>,
    time: (u64, u64),
    text: &str,
) -> Result<bool, Refusal> {
    let bag = view.sum_at(alloc, at(time))?;
    Ok(bag.to_string(alloc)?.as_str() == text)
}

// The same, and once more if memory was refused.
fn reads_again(
    alloc: Global,
    view: &mut View<Bitime>,
    time: (u64, u64),
    text: &str,
) -> Result<bool, Refusal> {
    match reads(alloc, view, time, text) {
        Err(Refusal::OutOfMemory) => reads(alloc, view, time, text),
        done => done,
    }
}

#[test]
fn reads_of_views_take_memory(rt: HostRuntime) -> Result<(), Fail> {
    let alloc = rt.alloc();
    let mut view = match captured(alloc) {
        Err(Refusal::OutOfMemory) => captured(alloc)?,
        done => done?,
    };
    assert!(rt; reads_again(alloc, &mut view, (0, 0), "1 7\n")?);
    assert!(rt; reads_again(alloc, &mut view, (0, 3), "-1 7\n")?);
    assert!(rt; reads_again(alloc, &mut view, (1, 1), "1 7\n4 8\n")?);
    match captured_more(alloc, &mut view) {
        Err(Refusal::OutOfMemory) => captured_more(alloc, &mut view)?,
        done => done?,
    }
    assert!(rt; reads_again(alloc, &mut view, (1, 2), "11 7\n4 8\n")?);
    assert!(rt; reads_again(alloc, &mut view, (3, 3), "14 7\n4 8\n")?);
    assert!(rt; reads_again(alloc, &mut view, (3, 0), "6 7\n")?);
    Ok(())
}

#[test]
fn sums_after_given_up_times_take_memory(rt: HostRuntime) -> Result<(), Fail> {
    let alloc = rt.alloc();
    let mut view = match captured(alloc) {
        Err(Refusal::OutOfMemory) => captured(alloc)?,
        done => done?,
    };
    assert!(rt; reads_again(alloc, &mut view, (1, 1), "1 7\n4 8\n")?);
    let Ok(since) = times(alloc, (1, 2)) else {
        return Ok(());
    };
    view.move_since(since);
    assert!(rt; view.since().len() == 1 && view.captured().len() == 4);
    assert!(rt; reads_again(alloc, &mut view, (3, 3), "4 7\n4 8\n")?);
    view.move_since(Vec::new(alloc).into());
    assert!(rt; view.since().is_empty());
    assert!(rt; reads_again(alloc, &mut view, (3, 3), "4 7\n4 8\n")?);
    Ok(())
}
