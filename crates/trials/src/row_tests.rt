//! Routes, worked out by hand. Their contract is the definition, so these rows show that the
//! definition means a remainder that is never negative. This also holds for a negative sum, and for
//! a sum that does not fit in 64 bits.
use row::route;

#[test]
fn routes_are_remainders_from_zero_on(rt: HostRuntime) {
    assert!(rt; route(&[-1], 3) == 2);
    assert!(rt; route(&[5, -7], 4) == 2);
    // 2 to the 64, minus 2
    assert!(rt; route(&[i64::MAX, i64::MAX], 16) == 14);
}
