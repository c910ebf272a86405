//! Which worker owns the rows of a key. All rows of one key must meet at one worker, no matter
//! which worker read them first. So the worker's number depends only on the key and on the number
//! of workers: it is the sum of the key's columns modulo the number of workers.
//!
//! The sum is exact and never wraps, so a key with large columns goes to the same worker on every
//! machine. The remainder is never negative, even if the sum is, so it is the number of a worker.
ghost use Rattle.std.specs.Prelude.{◌≡◌, ℕ, ◌*◌, ◌^◌, ◌<◌, ◌≤◌, List, ℤ, pos, neg_ℤ, ◌+ℤ◌, ◌*ℤ◌, ◌≤ℤ◌, length};
ghost use Rattle.row.specs.Routing.{column_sum, route_of};

/// The number, from 0 to `n - 1`, of the worker that owns the rows of this key if there are `n`
/// workers. Takes no memory.
///
/// Cost: one addition for each column, and one division.
pub fn route(key: &[i64], n: usize) -> usize
    requires some { 1 ≤ n }
    requires few { length key.now ≤ 8 }
    ensures value { result ≡ route_of key.now n }
    ensures within { result < n }
{
    sum(key).rem_euclid(n as i128) as usize
}

// The sum of at most eight columns. Each lies between -2^63 and 2^63, so the `i128` never wraps.
fn sum(key: &[i64]) -> i128
    requires { length key.now ≤ 8 }
    ensures value { result ≡ column_sum key.now }
    ensures low { neg_ℤ (pos (8 * 2 ^ 63)) ≤ℤ result }
    ensures high { result ≤ℤ pos (8 * 2 ^ 63) }
{
    let mut sum = 0;
    for column in key {
        sum += i128::from(*column);
    }
    sum
}

/// A route is a remainder: the sum of a key's columns is a multiple of the number of workers plus
/// the key's route, and the route is less than the number of workers. This function does nothing:
/// it is called for its clauses.
pub fn routes_are_remainders()
    ensures quotient { (key : List ℤ) (n : ℕ) → 1 ≤ n
        → (q : ℤ) × (column_sum key ≡ ((q *ℤ pos n) +ℤ pos (route_of key n))) }
    ensures within { (key : List ℤ) (n : ℕ) → 1 ≤ n → route_of key n < n }
{}
