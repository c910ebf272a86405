//! Antichains: the calls that take memory, also after an allocation was refused, and joins of
//! antichains that were worked out by hand.
use crate::sketches::at;
use antichain::{Antichain, NoMemory};
use lattice::Bitime;
use std::alloc::Global;

// The antichain joined with a copy of itself, which gives the antichain again.
fn joined_with_copy(frontier: &Antichain<Bitime>) -> Result<Antichain<Bitime>, NoMemory> {
    let copy = frontier.clone()?;
    frontier.joined(&copy)
}

// Four elements take no memory, and a fifth does. A refused insertion changes nothing.
#[test]
fn fifth_elements_take_memory(rt: HostRuntime) {
    let mut frontier = Antichain::from_elem(rt.alloc(), at((0, 4)));
    for n in 1u64..5 {
        let added = match frontier.insert(at((n, 4 - n))) {
            Err(NoMemory) => {
                assert!(rt; n == 4 && frontier.len() == 4);
                frontier.insert(at((n, 4 - n)))
            }
            done => done,
        };
        assert_eq!(rt; added, Ok(true));
    }
    let joined = match joined_with_copy(&frontier) {
        Err(NoMemory) => joined_with_copy(&frontier),
        done => done,
    };
    assert!(rt; joined.is_ok_and(|joined| joined == frontier));
}

// The antichain of these times.
fn antichain(alloc: Global, times: &[Bitime]) -> Result<Antichain<Bitime>, NoMemory> {
    let mut antichain = Antichain::new(alloc);
    for time in times {
        antichain.insert(*time)?;
    }
    Ok(antichain)
}

// A time is beyond the joined antichain if and only if it is beyond both. A union or an
// intersection of the elements would get this wrong.
#[test]
fn joined_antichains(rt: HostRuntime) -> Result<(), NoMemory> {
    let corner = antichain(rt.alloc(), &[at((0, 3)), at((3, 0))])?;
    let middle = corner.joined(&antichain(rt.alloc(), &[at((1, 1))])?)?;
    assert!(rt; middle.elements() == [at((1, 3)), at((3, 1))].as_slice());
    let above = corner.joined(&antichain(rt.alloc(), &[at((2, 4))])?)?;
    assert!(rt; above.elements() == [at((2, 4))].as_slice());
    let none = corner.joined(&antichain(rt.alloc(), &[])?)?;
    assert!(rt; none.is_empty());
    Ok(())
}
