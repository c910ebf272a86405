//! What lies gathered at a node: its least times are held, and what comes from two sources cancels
//! once it is given.
use columns::UpdateList;
use gathered::Gathered;
use lattice::Bitime;
use std::test::Fail;
use trials::sketches::{at, concat, list};

// What comes from the left.
const LEFT: &[((u64, u64), &[i64], i64)] = &[((0, 3), &[7], 1), ((2, 0), &[8], 1)];

// What comes from the right takes the first of it back.
const RIGHT: &[((u64, u64), &[i64], i64)] = &[((0, 3), &[7], -1)];

#[test]
fn what_comes_from_two_sources_cancels(rt: HostRuntime) -> Result<(), Fail> {
    let alloc = rt.alloc();
    let node = concat(0, 1);
    let mut left: UpdateList<Bitime> = list(alloc, LEFT)?.into();
    let mut right: UpdateList<Bitime> = list(alloc, RIGHT)?.into();
    let mut gathered = Gathered::new(alloc);
    gathered.take_in(alloc, &node, &mut left)?;
    gathered.take_in(alloc, &node, &mut right)?;
    let held = gathered.held(alloc)?;
    let lay = gathered.len();
    let given = gathered.take_summed(alloc, &node)?;
    assert!(rt; held.as_slice() == [at((0, 3)), at((2, 0))].as_slice());
    assert!(rt; lay == 3);
    assert!(rt; given.len() == 1 && given[0].time == at((2, 0)) && given[0].diff == 1);
    assert!(rt; gathered.len() == 0);
    Ok(())
}
