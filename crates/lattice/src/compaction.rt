//! Representatives of times as of a frontier. If a time is read only at times beyond the frontier,
//! then it may be replaced by its representative. As of a frontier that is not empty, times that no
//! such read can tell apart have one representative, so compaction merges all updates that can be
//! merged.
ghost use Rattle.std.specs.Prelude.{◌≡◌, ◌≢◌, List, [], IsTrue};
ghost use Rattle.lattice.specs.Frontiers.{is_beyond, all_beyond};
ghost use Rattle.lattice.specs.Representatives.{representative_of, Indistinguishable};

use crate::Lattice;

/// The meet, over the elements of the frontier, of the join of the time with the element; as of the
/// empty frontier, the time itself. The result is at or after the time, but need not be beyond the
/// frontier. If the time is already beyond the frontier, then the result is the time itself.
///
/// Cost: a join and a meet for each element; takes no memory. This is `advance_by` of differential
/// dataflow, and the representative of McSherry et al., Shared Arrangements, VLDB 2020.
pub fn representative<T: Lattice>(t: T, frontier: &[T]) -> T
    ensures value { result ≡ representative_of T.times frontier.now t }
    ensures keeps { Indistinguishable T.times frontier.now t result }
    ensures later { IsTrue (T.times.below t result) }
    ensures stays { IsTrue (is_beyond T.times frontier.now t) → result ≡ t }
{
    match frontier {
        [] => t,
        [first, rest @ ..] => {
            let mut met = t.join(*first);
            for f in rest {
                met = met.meet(t.join(*f));
            }
            met
        }
    }
}

/// What representatives are good for, in every lattice. This function does nothing: it is called
/// for its clauses.
///
/// - `reads`: at a time beyond the frontier, a read sees the representative if and only if it sees
///   the time.
/// - `one`: as of a frontier that is not empty, times that no read can tell apart have one
///   representative.
/// - `joins`: joined with a time beyond the frontier, the representative and the time give the same
///   result.
/// - `greatest`: as of a frontier that is not empty, take every time beyond the frontier at which
///   the given time is visible. The representative is the greatest time at or before all of them.
///   This clause says what a representative is, without its formula.
/// - `in_steps`: compacting as of one frontier and then as of a later one gives the same as
///   compacting as of the later one at once.
pub fn representatives_are_canonical<T: Lattice>()
    ensures reads { (F : List T) (t s : T) → IsTrue (is_beyond T.times F s)
        → T.times.below (representative_of T.times F t) s ≡ T.times.below t s }
    ensures one { (F : List T) (t u : T) → F ≢ [] → Indistinguishable T.times F t u
        → representative_of T.times F t ≡ representative_of T.times F u }
    ensures joins { (F : List T) (t u : T) → IsTrue (is_beyond T.times F t)
        → T.times.joined t (representative_of T.times F u) ≡ T.times.joined t u }
    ensures greatest { (F : List T) (t z : T) → F ≢ []
        → ((s : T) → IsTrue (is_beyond T.times F s) → IsTrue (T.times.below t s) → IsTrue (T.times.below z s))
        → IsTrue (T.times.below z (representative_of T.times F t)) }
    ensures in_steps { (F G : List T) (t : T) → G ≢ [] → IsTrue (all_beyond T.times F G)
        → representative_of T.times G (representative_of T.times F t)
        ≡ representative_of T.times G t }
{}
