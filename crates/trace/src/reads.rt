//! What every trace can be asked by its promises alone. Nothing here knows how batches are kept, so
//! it serves a batch list and a spine alike.
ghost use Rattle.std.specs.Prelude.{◌≡◌, List};
ghost use Rattle.trace.specs.Readings.{Insertion, IsReadable, all_content, all_updates};

use crate::Trace;

/// All batches of a trace. They are all that is stored, and can be read in the place of all that
/// was inserted. Takes no memory.
pub fn all_batches<R: Trace>(trace: &R) -> &[R::Batch]
    ensures content { all_content R.Batch.content result.now ≡ R.content trace.now }
    ensures reads { (h : List (Insertion R.Time)) → R.stands trace.now h
        → IsReadable R.Time.times (R.held trace.now)
        (all_content R.Batch.content result.now) (all_updates h) }
{
    trace.through(trace.upper()).unwrap()
}
