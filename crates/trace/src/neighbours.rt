//! Putting one batch in the place of two neighbours in a list. It is made before the old ones leave
//! the list, so if memory is refused then the list is as it was.
ghost use Rattle.std.specs.Prelude.{◌≡◌, ◌<◌, suc, length, vec_len, vec_capacity};
ghost use Rattle.trace.specs.BatchLists.{merged_at};

use batch::Batch;
use lattice::Lattice;

// Puts a batch in the place of the one with this number and the next one.
pub(crate) fn put_merged<T: Lattice>(batches: &mut Vec<Batch<T>>, i: usize, merged: Batch<T>)
    requires { suc i < length batches.old.items }
    ensures items { batches.new.items ≡ merged_at i merged batches.old.items }
    ensures room { vec_len batches.new < vec_capacity batches.new }
{
    batches[i] = merged;
    let _gone = batches.remove(i + 1);
}
