//! The places where runs begin. They ascend, and the first is 0. So the run that a place belongs to
//! is found by a binary search: it is the last one that begins at the place or before it.
//!
//! A caller that goes from place to place knows the run nearly. It is then found without a search.
ghost use Rattle.std.specs.Prelude.{◌≡◌, ◌<◌, IsTrue, length, slice_index_or};
ghost use Rattle.std.specs.List.{AllPairs};
ghost use Rattle.columns.specs.Runs.{run_number};

// The number of the run at a place, by a binary search.
pub(crate) fn run_at(starts: &[usize], place: usize) -> usize
    requires ascending { AllPairs (λ s t. s < t) starts.now }
    requires first { slice_index_or starts.now 0 1 ≡ 0 }
    ensures number { result ≡ run_number starts.now place }
    ensures within { result < length starts.now }
{
    starts.partition_point(|start| *start <= place) - 1
}

// Whether a run is the one at a place. Any number may be asked for.
fn is_run_at(starts: &[usize], place: usize, run: usize) -> bool
    requires ascending { AllPairs (λ s t. s < t) starts.now }
    ensures number { IsTrue result → run_number starts.now place ≡ run }
    ensures within { IsTrue result → run < length starts.now }
{
    if run >= starts.len() || starts[run] > place {
        return false;
    }
    run + 1 == starts.len() || place < starts[run + 1]
}

// The number of the run at a place: in constant time if it is `near` or the one behind it, else by
// a binary search.
pub(crate) fn run_near(starts: &[usize], place: usize, near: usize) -> usize
    requires ascending { AllPairs (λ s t. s < t) starts.now }
    requires first { slice_index_or starts.now 0 1 ≡ 0 }
    ensures number { result ≡ run_number starts.now place }
    ensures within { result < length starts.now }
{
    if is_run_at(starts, place, near) {
        return near;
    }
    let next = near.saturating_add(1);
    if is_run_at(starts, place, next) {
        return next;
    }
    run_at(starts, place)
}

// The place where a run begins; the length behind the last run.
pub(crate) fn place_of(starts: &[usize], run: usize, length: usize) -> usize
    ensures { result ≡ slice_index_or starts.now run length }
{
    if run < starts.len() {
        starts[run]
    } else {
        length
    }
}
