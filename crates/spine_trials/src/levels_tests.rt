//! Levels: merges succeed if there is memory, and readers see the old batches until a merge is
//! whole. Which merge is begun when is the caller's choice, so these tests make one.
use antichain::Antichain;
use batch::BatchReader;
use batch_trials::sealed;
use lattice::Bitime;
use levels::Levels;
use std::alloc::Global;
use std::test::Fail;
use trace::{BatchList, Trace};
use trials::sketches::{at, list};
use update::Refusal;

// Inserts a batch of one update of the row [7] behind all others.
fn insert(
    alloc: Global,
    levels: &mut Levels<Bitime>,
    from: (u64, u64),
    to: (u64, u64),
) -> Result<(), Refusal> {
    let batch = sealed(alloc, from, to, &list(alloc, &[(from, &[7], 1)])?)?;
    match levels.insert(batch) {
        Ok(()) => Ok(()),
        Err(unplaced) => Err(unplaced.refusal),
    }
}

// Four batches of one update each.
fn four(alloc: Global) -> Result<Levels<Bitime>, Refusal> {
    let mut levels = Levels::of(alloc, BatchList::new(alloc, 0, 0)?);
    insert(alloc, &mut levels, (0, 0), (1, 1))?;
    insert(alloc, &mut levels, (1, 1), (2, 2))?;
    insert(alloc, &mut levels, (2, 2), (3, 3))?;
    insert(alloc, &mut levels, (3, 3), (4, 4))?;
    Ok(levels)
}

// Begins to merge the first two batches behind all that is under way, if there are two.
fn begin_two(levels: &mut Levels<Bitime>, since: &Antichain<Bitime>) -> Result<bool, Refusal> {
    let number = levels.end();
    if levels.batches().len() - number < 2 {
        return Ok(false);
    }
    levels.begin_two(number, since.elements())?;
    Ok(true)
}

// Goes on with the newest merge by some units, and answers what is left of them. None if nothing is
// under way.
fn go_on(levels: &mut Levels<Bitime>, fuel: u64) -> Result<Option<u64>, Refusal> {
    if levels.newest().is_none() || fuel == 0 {
        return Ok(None);
    }
    let step = levels.go_on(fuel)?;
    Ok(Some(step.left))
}

// How many batches there are after so many calls of one unit each.
fn batches_after(alloc: Global, calls: u64) -> Result<usize, Refusal> {
    let mut levels = four(alloc)?;
    let since = Antichain::from_elem(alloc, at((0, 0)));
    begin_two(&mut levels, &since)?;
    for _ in 0..calls {
        go_on(&mut levels, 1)?;
    }
    Ok(levels.batches().len())
}

// The same, and once more if memory was refused.
fn batches_again(alloc: Global, calls: u64) -> Result<usize, Refusal> {
    match batches_after(alloc, calls) {
        Err(Refusal::OutOfMemory) => batches_after(alloc, calls),
        done => done,
    }
}

// Two updates are read for two units, and the third puts the batch in the place of both: not the
// second.
#[test]
fn a_merge_in_levels_takes_memory(rt: HostRuntime) -> Result<(), Fail> {
    assert!(rt; batches_again(rt.alloc(), 2)? == 4);
    assert!(rt; batches_again(rt.alloc(), 3)? == 3);
    Ok(())
}

// Merges the third and fourth batch while the merge of the first two waits, and answers how many
// batches there are then.
fn merge_behind(levels: &mut Levels<Bitime>, since: &Antichain<Bitime>) -> Result<usize, Refusal> {
    begin_two(levels, since)?;
    go_on(levels, 1)?;
    begin_two(levels, since)?;
    go_on(levels, 100)?;
    Ok(levels.batches().len())
}

// A list that finished the older merge first, or whose numbers shifted, would merge other batches.
#[test]
fn the_newest_merge_goes_on(rt: HostRuntime) -> Result<(), Fail> {
    let mut levels = four(rt.alloc())?;
    let since = Antichain::from_elem(rt.alloc(), at((3, 3)));
    assert!(rt; merge_behind(&mut levels, &since)? == 3);
    assert!(rt; matches!(levels.newest(), Some(place) if place.number == 0 && !place.is_alone));
    assert!(rt;
        matches!(levels.batches(), [a, b, c] if a.len() == 1 && b.len() == 1 && c.len() == 1)
    );
    assert!(rt; levels.list().upper() == [at((4, 4))].as_slice());
    assert!(rt; go_on(&mut levels, 100)? == Some(98));
    assert!(rt; matches!(levels.batches(), [both, rest] if both.len() == 1 && rest.len() == 1));
    assert!(rt; go_on(&mut levels, 100)? == None);
    Ok(())
}

// Begins to rewrite the first batch behind all that is under way, if there is one.
fn begin_one(levels: &mut Levels<Bitime>, since: &Antichain<Bitime>) -> Result<bool, Refusal> {
    let number = levels.end();
    if number == levels.batches().len() {
        return Ok(false);
    }
    levels.begin_one(number, since.elements())?;
    Ok(true)
}

// Gives the newest merge up, if there is one.
fn give_up(levels: &mut Levels<Bitime>) {
    if levels.newest().is_some() {
        levels.give_up();
    }
}

// A rewriting moves the times of one batch, and those of the others stay. The merge that was begun
// behind it is given up first.
#[test]
fn one_batch_is_rewritten_alone(rt: HostRuntime) -> Result<(), Fail> {
    let mut levels = four(rt.alloc())?;
    let since = Antichain::from_elem(rt.alloc(), at((3, 3)));
    assert!(rt; begin_one(&mut levels, &since)? && levels.end() == 1);
    assert!(rt; begin_two(&mut levels, &since)? && levels.end() == 3);
    give_up(&mut levels);
    assert!(rt; matches!(levels.newest(), Some(place) if place.number == 0 && place.is_alone));
    assert!(rt; go_on(&mut levels, 100)? == Some(98) && levels.end() == 0);
    assert!(rt;
        matches!(levels.batches(), [a, b, _, _] if a.len() == 1
            && a.time(0) == at((3, 3))
            && b.len() == 1
            && b.time(0) == at((1, 1)))
    );
    Ok(())
}
