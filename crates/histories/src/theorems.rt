//! What holds of every legal history, over every lattice: the theorems of this crate. The functions
//! do nothing; their contracts are the theorems. They speak of histories alone, so that they can be
//! read without any code. A caller that holds a board of `machine` uses its `meets` instead.
ghost use Rattle.std.specs.Prelude.{◌≡◌, ◌≢◌, ℕ, ◌<◌, ◌++◌, ◌∷◌, List, IsTrue};
ghost use Rattle.update.specs.Bags.{Alike};
ghost use Rattle.update.specs.Updates.{as_of};
ghost use Rattle.update.specs.declared.change.Update.{Update};
ghost use Rattle.plan.specs.Changes.{has_passed};
ghost use Rattle.histories.specs.Histories.Dataflows.{Dataflow, IsDataflow};
ghost use Rattle.histories.specs.declared.event.Event.{Event};
ghost use Rattle.lattice.specs.Frontiers.{is_beyond};
ghost use Rattle.antichain.specs.Antichains.{is_antichain};
ghost use Rattle.histories.specs.Histories.States.{update_times};
ghost use Rattle.histories.specs.Histories.Outstanding.{stamp, strictly_upstream};
ghost use Rattle.histories.specs.Histories.{IsLegal, state_after, dataflow_after, frontier_after, input_frontier_after, port_frontier_after, emitted_after, actor_of};
ghost use Rattle.histories.specs.Histories.Actors.{IsSameOfWorker, IsSameOfClients};
ghost use Rattle.histories.specs.Histories.Readings.{IsQuiet, IsCaughtUp};
ghost use Rattle.histories.specs.Histories.Examples.{IsExample};
ghost use Rattle.histories.specs.Histories.Promises.{IsInPlace, changes_after, MeetsQuery, MeetsDifferences, MeetsPart, IsClearAt, NothingLurks, PortsAreInput, KeepsBound, OwesWithinBound, TakesWithinBound, LoadsWithinBound, NeverGoesBack};

use lattice::Minimum;

/// The headline. In every legal history, for any number of workers and however bundles were cut,
/// sent and taken: if a node's frontier has passed a time, then what the node gave on all workers,
/// summed to that time, is the query computed from scratch on the changes fed, summed to that time.
/// At a view, what the node gave is what the view captured.
pub fn headline<T: Minimum>()
    ensures { (p : Dataflow) → IsDataflow p → (h : List (Event T)) → IsLegal T.times p h
        → (n : ℕ) → MeetsQuery T.times (dataflow_after p h) (state_after T.times p h) n }
{}

/// At passed times, what a node gave consolidates to the one list of differences of its query. No
/// worker occurs in that list. So if two legal histories of one plan have alike changes, they agree
/// at each time that both frontiers have passed, even if they have different numbers of workers.
pub fn one_list<T: Minimum>()
    ensures differences { (p : Dataflow) → IsDataflow p
        → (h : List (Event T)) → IsLegal T.times p h → (n : ℕ)
        → MeetsDifferences T.times (dataflow_after p h) (state_after T.times p h) n T.cmp }
    ensures agree { (p q : Dataflow) → IsDataflow p → IsDataflow q → q.nodes ≡ p.nodes
        → (h k : List (Event T)) → IsLegal T.times p h → IsLegal T.times q k
        → ((input : ℕ) (t : T) → Alike (as_of T.times t (changes_after T.times p h input))
        (as_of T.times t (changes_after T.times q k input)))
        → (n : ℕ) (t : T) → IsTrue (has_passed T.times (frontier_after T.times p h n) t)
        → IsTrue (has_passed T.times (frontier_after T.times q k n) t)
        → Alike (as_of T.times t (emitted_after T.times p h n))
        (as_of T.times t (emitted_after T.times q k n)) }
{}

/// At a join or reduction, what one worker gave is the part of the query whose keys are its own, at
/// each time that has been passed both by the node's input frontier and by the times that the
/// worker still holds there.
pub fn parts_of_workers<T: Minimum>()
    ensures { (p : Dataflow) → IsDataflow p → (h : List (Event T)) → IsLegal T.times p h
        → (n k : ℕ) → MeetsPart T.times (dataflow_after p h) (state_after T.times p h) n k }
{}

/// No frontier goes back: a time that a frontier has passed stays passed in every legal
/// continuation. This holds of a node's frontier, of its input frontier, and of the frontier of
/// each of its ports.
pub fn frontiers_do_not_go_back<T: Minimum>()
    ensures frontiers { (p : Dataflow) → IsDataflow p
        → (h later : List (Event T)) → IsLegal T.times p (later ++ h)
        → (n : ℕ) → NeverGoesBack T.times (frontier_after T.times p h n)
        (frontier_after T.times p (later ++ h) n) }
    ensures inputs { (p : Dataflow) → IsDataflow p
        → (h later : List (Event T)) → IsLegal T.times p (later ++ h)
        → (n : ℕ) → NeverGoesBack T.times (input_frontier_after T.times p h n)
        (input_frontier_after T.times p (later ++ h) n) }
    ensures ports { (p : Dataflow) → IsDataflow p
        → (h later : List (Event T)) → IsLegal T.times p (later ++ h)
        → (n port : ℕ) → NeverGoesBack T.times (port_frontier_after T.times p h n port)
        (port_frontier_after T.times p (later ++ h) n port) }
{}

/// If a node's frontier has passed a time, then nothing is outstanding at or before that time, at
/// the node or above it. If its input frontier has passed the time, then now and after any later
/// events nothing that could still reach the node is outstanding at or before that time: no bundle
/// in flight to the node or above it, no time held above it, and no open input.
pub fn nothing_lurks<T: Minimum>()
    ensures frontiers { (p : Dataflow) → IsDataflow p
        → (h : List (Event T)) → IsLegal T.times p h
        → (n : ℕ) → NothingLurks T.times (dataflow_after p h) (state_after T.times p h) n }
    ensures inputs { (p : Dataflow) → IsDataflow p
        → (h later : List (Event T)) → IsLegal T.times p (later ++ h)
        → (n : ℕ) (t : T)
        → IsTrue (has_passed T.times (input_frontier_after T.times p h n) t)
        → IsClearAt T.times (dataflow_after p (later ++ h))
        (state_after T.times p (later ++ h)) n
        (strictly_upstream p n) t }
{}

/// For a node that reads other nodes, the input frontier has passed a time exactly if the frontier
/// of each of its ports has passed it.
pub fn port_frontiers_are_the_input_frontier<T: Minimum>()
    ensures { (p : Dataflow) → IsDataflow p → (h : List (Event T)) → IsLegal T.times p h
        → (n : ℕ) → PortsAreInput T.times (dataflow_after p h) (state_after T.times p h) n }
{}

/// Sizes stay within bounds. A node's bound is found from the plan and the changes fed alone.
///
/// - `emitted`: what a node gave on all workers is within its bound.
/// - `owed`: so is what a reduction has computed so far, before it gives it. So a reduction may
///   answer that a number is too large only if its bound is too large.
/// - `received`: what a worker received at a port is within the bound of the node that the port
///   reads.
/// - `loads`: at a node that is no reduction, what the node may make of what a worker received is
///   within its own bound.
pub fn bounds_are_kept<T: Minimum>()
    ensures emitted { (p : Dataflow) → IsDataflow p
        → (h : List (Event T)) → IsLegal T.times p h → (n : ℕ)
        → KeepsBound T.times (dataflow_after p h) (state_after T.times p h) n T.cmp }
    ensures owed { (p : Dataflow) → IsDataflow p
        → (h : List (Event T)) → IsLegal T.times p h → (n : ℕ)
        → OwesWithinBound T.times (dataflow_after p h) (state_after T.times p h) n T.cmp }
    ensures received { (p : Dataflow) → IsDataflow p
        → (h : List (Event T)) → IsLegal T.times p h → (n : ℕ)
        → TakesWithinBound T.times (dataflow_after p h) (state_after T.times p h) n T.cmp }
    ensures loads { (p : Dataflow) → IsDataflow p
        → (h : List (Event T)) → IsLegal T.times p h → (n : ℕ)
        → LoadsWithinBound T.times (dataflow_after p h) (state_after T.times p h) n T.cmp }
{}

/// The stamp of some updates is the frontier of their times: the same times are beyond both, and no
/// two elements of the stamp can be compared, so none occurs twice.
pub fn stamps_are_frontiers<T: Minimum>()
    ensures apart { (us : List (Update T)) → IsTrue (is_antichain T.times (stamp T.times us)) }
    ensures beyond { (us : List (Update T)) → (t : T)
        → is_beyond T.times (stamp T.times us) t ≡ is_beyond T.times (update_times us) t }
{}

/// If a board is quiet, it has caught up: each node's frontier, and so each view's, is the least of
/// the frontiers of the inputs that feed it.
pub fn quiet_is_caught_up<T: Minimum>()
    ensures { (p : Dataflow) → IsDataflow p → (h : List (Event T)) → IsLegal T.times p h
        → IsQuiet T.times (dataflow_after p h) (state_after T.times p h) → (n : ℕ)
        → IsCaughtUp T.times (dataflow_after p h) (state_after T.times p h) n }
{}

/// Everything that waits is at a place that exists: bundles, of which none is empty, held times,
/// open inputs and pieces in hand. So a worker that goes through its places finds every bundle for
/// it.
pub fn what_waits_has_its_place<T: Minimum>()
    ensures { (p : Dataflow) → IsDataflow p → (h : List (Event T)) → IsLegal T.times p h
        → IsInPlace (dataflow_after p h) (state_after T.times p h) }
{}

/// An event changes nothing of any other worker: what that worker received and gave, the times that
/// it holds, its piece in hand, and the input frontiers that its takes recorded. So a worker knows
/// these without a look at the board.
pub fn workers_are_apart<T: Minimum>()
    ensures { (p : Dataflow) → (h : List (Event T)) (e : Event T) → (k : ℕ) → actor_of e ≢ k
        → IsSameOfWorker k (state_after T.times p h)
        (state_after T.times p (e ∷ h)) }
{}

/// An event of a worker changes nothing that clients did: the changes that they fed, the frontiers
/// of the inputs, and the sinces of the views. A number below the number of workers is a worker's;
/// the others are clients'.
pub fn clients_are_apart<T: Minimum>()
    ensures { (p : Dataflow) → (h : List (Event T)) (e : Event T)
        → IsLegal T.times p (e ∷ h) → actor_of e < p.workers
        → IsSameOfClients (state_after T.times p h)
        (state_after T.times p (e ∷ h)) }
{}

/// The premises of these theorems can be met. There is a plan with a join and a reduction, a legal
/// history of it in which every kind of event occurs, and a reading of a view that contains a row
/// at a time that the view's frontier has passed and that is still held.
pub fn premises_can_be_met()
    ensures { (p : Dataflow) × (h : List (Event ℕ)) × (v : ℕ) × (us : List (Update ℕ))
        × (front : List ℕ) × (since : List ℕ) × (t : ℕ) × IsExample p h v us front since t }
{}
