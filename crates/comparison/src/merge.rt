//! Two bags, gone through side by side. Both are in the order of their rows, so the next row is the
//! lesser of two, and a row that both have comes up in both at once.
ghost use Rattle.std.specs.Prelude.{◌≡◌, ◌≢◌, ◌^◌, ◌≤◌, ◌<◌, [], ◌∷◌, length, drop, slice_get, IfNone, IfSome, IsSomeAnd, MatchOption};
ghost use Rattle.std.specs.declared.cmp.Ordering.TheVariants.{Less, Greater};
ghost use Rattle.comparison.specs.Merges.{heads_order, only_before, only_after, in_both, remaining};

use crate::change::Change;
use std::cmp::Ordering;
use update::Bag;

/// How many rows of each bag have been taken.
#[derive(Clone, Copy)]
pub(crate) struct Cursors {
    pub before: usize,
    pub after: usize,
}

// Which of the two bags has the next row: a bag that has no row left comes second. None if no row
// is left in either.
fn order_of_heads(before: &Bag, after: &Bag, at: Cursors) -> Option<Ordering>
    requires within { (at.before ≤ length before.now) × (at.after ≤ length after.now) }
    ensures end { IfNone result (remaining before.now after.now at ≡ []) }
    ensures order { IfSome result
        (λ o. o ≡ heads_order (drop at.before before.now) (drop at.after after.now)) }
    ensures before { IfSome result (λ o. o ≢ Greater → at.before < length before.now) }
    ensures after { IfSome result (λ o. o ≢ Less → at.after < length after.now) }
    ensures fits { (length before.now < 2 ^ 64) × (length after.now < 2 ^ 64) }
{
    if at.after == after.len() {
        return if at.before == before.len() {
            None
        } else {
            Some(Ordering::Less)
        };
    }
    if at.before == before.len() {
        return Some(Ordering::Greater);
    }
    Some(before.row(at.before).cmp(after.row(at.after)))
}

// Entry `i` of the first bag, whose row the second has not.
fn removed_row(before: &Bag, i: usize) -> Change
    requires { i < length before.now }
    ensures { IsSomeAnd (slice_get before.now i) (λ x. result ≡ only_before x) }
{
    Change {
        row: before.row(i).copy(),
        before: before.count(i),
        after: 0,
    }
}

// Entry `j` of the second bag, whose row the first has not.
fn added_row(after: &Bag, j: usize) -> Change
    requires { j < length after.now }
    ensures { IsSomeAnd (slice_get after.now j) (λ y. result ≡ only_after y) }
{
    Change {
        row: after.row(j).copy(),
        before: 0,
        after: after.count(j),
    }
}

// Entries `i` and `j` of the two bags, which have the same row.
fn common_row(before: &Bag, i: usize, after: &Bag, j: usize) -> Change
    requires { (i < length before.now) × (j < length after.now) }
    ensures { IsSomeAnd (slice_get before.now i)
        (λ x. IsSomeAnd (slice_get after.now j) (λ y. result ≡ in_both x y)) }
{
    Change {
        row: before.row(i).copy(),
        before: before.count(i),
        after: after.count(j),
    }
}

/// Takes the next row, with its weights in both bags.
pub(crate) fn next_change(before: &Bag, after: &Bag, at: &mut Cursors) -> Option<Change>
    requires within { (at.old.before ≤ length before.now) × (at.old.after ≤ length after.now) }
    ensures next { MatchOption result
        (remaining before.now after.now at.old ≡ [])
        (λ c. remaining before.now after.now at.old ≡ c ∷ remaining before.now after.now at.new) }
    ensures within { (at.new.before ≤ length before.now) × (at.new.after ≤ length after.now) }
    ensures fits { (length before.now < 2 ^ 64) × (length after.now < 2 ^ 64) }
{
    match order_of_heads(before, after, *at)? {
        Ordering::Less => {
            let change = removed_row(before, at.before);
            at.before += 1;
            Some(change)
        }
        Ordering::Equal => {
            let change = common_row(before, at.before, after, at.after);
            at.before += 1;
            at.after += 1;
            Some(change)
        }
        Ordering::Greater => {
            let change = added_row(after, at.after);
            at.after += 1;
            Some(change)
        }
    }
}
