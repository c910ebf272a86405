//! Whether times are beyond a frontier that is kept as a plain list, such as the frontiers in the
//! description of a batch. [`Antichain`] asks the same of its elements.
//!
//! [`Antichain`]: crate::Antichain
ghost use Rattle.std.specs.Prelude.{◌≡◌};
ghost use Rattle.lattice.specs.Frontiers.{is_beyond, all_beyond};

use lattice::PartialOrder;

/// Whether the time is beyond the frontier, which means that some element of the frontier is at or
/// before the time. Otherwise the frontier has passed the time. Takes no memory.
///
/// Cost: one comparison for each element.
pub fn is_beyond<T: PartialOrder>(frontier: &[T], t: &T) -> bool
    ensures { result ≡ is_beyond T.times frontier.now t.now }
{
    for f in frontier {
        if f.less_equal(t) {
            return true;
        }
    }
    false
}

/// Whether each element of the later frontier is beyond the earlier one. Takes no memory.
///
/// Cost: one comparison for each pair of elements.
pub fn all_beyond<T: PartialOrder>(earlier: &[T], later: &[T]) -> bool
    ensures { result ≡ all_beyond T.times earlier.now later.now }
{
    for t in later {
        if !is_beyond(earlier, t) {
            return false;
        }
    }
    true
}
