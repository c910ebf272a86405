//! Representatives with two and with three axes, worked out by hand. Their contract is the
//! definition. So these rows show that the definition means what it should: two times have the same
//! representative if readers as of the frontier cannot tell them apart.
use crate::times::at;
use lattice::{Bitime, Pair, representative};

// A time with a third axis.
fn at_third(valid: u64, system: u64, third: u64) -> Pair<Bitime, u64> {
    Pair {
        first: at(valid, system),
        second: third,
    }
}

// As of two times that cannot be compared. A join with only one of them would move (3, 3), and the
// meet of both would lose (1, 9).
#[test]
fn representatives_as_of_two_times(rt: HostRuntime) {
    let frontier = [at(2, 5), at(5, 2)];
    let rows = [
        (at(0, 0), at(2, 2)),
        (at(1, 9), at(2, 9)),
        (at(0, 3), at(2, 3)),
        (at(3, 0), at(3, 2)),
        (at(3, 3), at(3, 3)),
        (at(9, 9), at(9, 9)),
    ];
    for (time, want) in &rows {
        assert!(rt; representative(*time, &frontier) == *want);
        assert!(rt; representative(*time, &[]) == *time);
    }
}

// The meet is taken on the third axis separately from the other two.
#[test]
fn representatives_at_three_axes(rt: HostRuntime) {
    let frontier = [at_third(2, 5, 1), at_third(5, 2, 4)];
    let found = representative(at_third(0, 0, 0), &frontier);
    assert!(rt; found == at_third(2, 2, 1));
}
