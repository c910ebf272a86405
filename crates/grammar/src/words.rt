//! Words as numbers, one or several in a row. The first word that is not a number refuses the line.
ghost use Rattle.std.specs.Prelude.{◌≡◌, ◌++◌, ◌∷◌, [], ◌≤◌, length, map, OnOk, IfOk, IfErr};
ghost use Rattle.grammar.specs.Outcomes.{Gives};
ghost use Rattle.grammar.specs.Words.{whole, signed, wholes, columns, pairs_of};

use crate::fault::LineError;
use crate::numbers::{signed_number, whole_number};
use lattice::{Bitime, Pair};
use row::Row;
use smallvec::SmallVec;
use std::alloc::Global;
use update::{Refusal, Times};

// The word as a whole number; `BadNumber` if it is not one.
#[tactic(auto, unfolding(crate::specs::Words::whole))]
pub(crate) fn whole(word: &str) -> Result<u64, LineError>
    ensures { Gives (λ n. n) result (whole word.now) }
{
    match whole_number(word) {
        Some(number) => Ok(number),
        None => Err(LineError::Refused(Refusal::BadNumber)),
    }
}

// The word as a signed number; `BadNumber` if it is not one.
#[tactic(auto, unfolding(crate::specs::Words::signed))]
pub(crate) fn signed(word: &str) -> Result<i64, LineError>
    ensures { Gives (λ z. z) result (signed word.now) }
{
    match signed_number(word) {
        Some(number) => Ok(number),
        None => Err(LineError::Refused(Refusal::BadNumber)),
    }
}

// The columns of a row. Up to eight columns take no memory.
type Columns = SmallVec<i64, 8>;

fn push_column(columns: &mut Columns, column: i64) -> Result<(), LineError>
    ensures ok { OnOk result (columns.new.items ≡ columns.old.items ++ column ∷ []) }
    ensures err { IfErr result (λ e. e ≡ LineError.Memory) }
{
    columns.push(column)?;
    Ok(())
}

// The words as signed numbers; `BadNumber` if one of them is not one.
#[tactic(auto, unfolding(crate::specs::Words::columns))]
fn columns(alloc: Global, words: &[&str]) -> Result<Columns, LineError>
    ensures { Gives (λ v. v.items) result (columns (map (λ w. w.now) words.now)) }
{
    let mut columns = SmallVec::new(alloc);
    for word in words {
        let column = signed(word)?;
        push_column(&mut columns, column)?;
    }
    Ok(columns)
}

// The row of 1 to 8 words that must be signed numbers. The row itself takes no memory.
pub(crate) fn row(alloc: Global, words: &[&str]) -> Result<Row, LineError>
    requires some { 1 ≤ length words.now }
    requires few { length words.now ≤ 8 }
    ensures { Gives (λ row. row) result (columns (map (λ w. w.now) words.now)) }
{
    let columns = columns(alloc, words)?;
    Ok(Row::of(alloc, &columns))
}

// The words as whole numbers; `BadNumber` if one of them is not one.
#[tactic(auto, unfolding(crate::specs::Words::wholes))]
pub(crate) fn wholes(alloc: Global, words: &[&str]) -> Result<Vec<u64>, LineError>
    ensures { Gives (λ v. v.items) result (wholes (map (λ w. w.now) words.now)) }
{
    let mut numbers = Vec::new(alloc);
    for word in words {
        let number = whole(word)?;
        numbers.push(number)?;
    }
    Ok(numbers)
}

// The numbers in pairs, each pair as a time.
pub(crate) fn times(alloc: Global, numbers: &[u64]) -> Result<Times<Bitime>, LineError>
    ensures ok { IfOk result (λ times. times ≡ pairs_of numbers.now) }
    ensures err { IfErr result (λ e. e ≡ LineError.Memory) }
{
    let mut times = Vec::new(alloc);
    let mut rest = numbers;
    while let [valid, system, more @ ..] = rest {
        times.push(time(*valid, *system))?;
        rest = more;
    }
    Ok(Times::from(times))
}

// The time with this valid time and this system time.
pub(crate) fn time(valid: u64, system: u64) -> Bitime
    ensures { result ≡ record { first = valid; second = system } }
{
    Pair {
        first: valid,
        second: system,
    }
}
