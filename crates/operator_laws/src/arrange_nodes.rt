//! What the events of a worker make of an arrange node's trace, and of what waits behind it. The
//! functions do nothing.
ghost use Rattle.std.specs.Prelude.{◌≡◌, ℕ, List, [], ◌∷◌, ◌++◌, IsTrue, false};
ghost use Rattle.lattice.specs.Frontiers.{all_beyond};
ghost use Rattle.update.specs.declared.change.Update.{Update};
ghost use Rattle.batch.specs.Intervals.{is_interval_of, passed_updates, open_updates};
ghost use Rattle.plan.specs.declared.node.Node.TheVariants.{Arrange};
ghost use Rattle.linear.specs.Ports.{is_port};
ghost use Rattle.trace.specs.Readings.{Insertion, reached};
ghost use Rattle.histories.specs.declared.event.Bundle.{Bundle};
ghost use Rattle.histories.specs.declared.event.Emission.{Emission};
ghost use Rattle.histories.specs.declared.event.Event.{Event};
ghost use Rattle.histories.specs.declared.event.Event.TheVariants.{Take};
ghost use Rattle.histories.specs.Histories.Dataflows.{Dataflow, IsDataflow, node_of};
ghost use Rattle.histories.specs.Histories.States.{State, update_times};
ghost use Rattle.histories.specs.Histories.Outstanding.{input_frontier};
ghost use Rattle.histories.specs.Histories.{initial_state, next_state, give_state, IsTake, IsGive, IsAllowed};
ghost use Rattle.histories.specs.Histories.Promises.{NeverGoesBack};
ghost use Rattle.operator_laws.specs.GatheredUpdates.{is_of, IsCut, IsInHand, IsSplit, IsStamped, IsHeldFor};
ghost use Rattle.operator_laws.specs.ArrangeNodes.{IsArranging, IsSealOf};

use lattice::Minimum;

/// Before the first event a trace that begins at the least time stands for nothing.
pub fn arranging_begins<T: Minimum>()
    ensures { (p : Dataflow) (n k source key : ℕ) → node_of p n ≡ Arrange source key
        → IsArranging T.times p (initial_state T.times p) n k (T.times.least ∷ []) [] [] }
{}

/// Every other event preserves the invariant, and so does turning to held times.
pub fn arranged_elsewhere<T: Minimum>()
    ensures { (p : Dataflow) → IsDataflow p
        → (w : State T) (n k : ℕ) (start : List T) (inserted : List (Insertion T))
        → (waiting : List (Update T))
        → IsArranging T.times p w n k start inserted waiting
        → (e : Event T) → IsAllowed T.times p w e → is_of n k e ≡ false
        → IsArranging T.times p (next_state T.times p w e) n k start inserted waiting }
{}

/// A bundle waits from its take on. What comes is beyond the trace's boundary.
pub fn arranged_takes<T: Minimum>()
    ensures { (p : Dataflow) → IsDataflow p
        → (w : State T) (number : ℕ) (bundle : Bundle T) (start : List T)
        → (inserted : List (Insertion T)) (waiting : List (Update T))
        → IsArranging T.times p w bundle.place.node bundle.place.worker start inserted waiting
        → IsTrue (is_port (node_of p bundle.place.node) bundle.place.port)
        → IsStamped T.times bundle → IsTake T.times p w number bundle
        → IsArranging T.times p (next_state T.times p w (Take number bundle))
        bundle.place.node bundle.place.worker start inserted (bundle.updates ++ waiting) }
{}

/// It does not matter in which order updates wait.
pub fn arranged_in_any_order<T: Minimum>()
    ensures { (p : Dataflow) (w : State T) (n k : ℕ) (start : List T)
        → (inserted : List (Insertion T)) (us vs : List (Update T))
        → IsArranging T.times p w n k start inserted (us ++ vs)
        → IsArranging T.times p w n k start inserted (vs ++ us) }
{}

/// Nothing may be given, and what waits be held back, consolidated or not. Then nothing is
/// inserted.
pub fn arranged_holds_back<T: Minimum>()
    ensures { (p : Dataflow) → IsDataflow p
        → (w : State T) (n k : ℕ) (start : List T) (inserted : List (Insertion T))
        → (waiting rest : List (Update T)) (held : List T)
        → IsArranging T.times p w n k start inserted waiting → IsInHand p w n k
        → IsSplit T.times waiting [] rest → IsHeldFor T.times held (update_times rest)
        → IsGive T.times p w (record { node = n; worker = k; updates = [] }) held []
        × IsArranging T.times p
        (give_state T.times p w (record { node = n; worker = k; updates = [] }) held [])
        n k start inserted rest }
{}

/// What waits and a frontier has passed may be sealed between the trace's boundary and that
/// frontier, if the frontier has passed all that the boundary has, as the node's input frontier
/// has. It is never stray.
pub fn may_seal<T: Minimum>()
    ensures { (p : Dataflow) (w : State T) (n k : ℕ) (start : List T)
        → (inserted : List (Insertion T)) (waiting : List (Update T)) (frontier : List T)
        → IsArranging T.times p w n k start inserted waiting
        → NeverGoesBack T.times (reached start inserted) frontier
        → IsTrue (is_interval_of T.times (reached start inserted) frontier
        (passed_updates T.times frontier waiting)) }
{}

/// Such a batch is, with what the frontier has not passed, all that waits.
pub fn sealed_splits<T: Minimum>()
    ensures { (frontier : List T) (waiting out : List (Update T))
        → IsSealOf T.cmp (passed_updates T.times frontier waiting) out
        → IsSplit T.times waiting out (open_updates T.times frontier waiting) }
{}

/// A batch may be given up to any frontier that the input frontier has come to or passed, and
/// beyond which all the rest is. From then on the trace has it, and that frontier has not passed
/// what is held.
pub fn arranged_inserts<T: Minimum>()
    ensures { (p : Dataflow) → IsDataflow p
        → (w : State T) (g : Emission T) (sent : List (Bundle T)) (start : List T)
        → (inserted : List (Insertion T)) (waiting rest : List (Update T)) (upper held : List T)
        → IsArranging T.times p w g.node g.worker start inserted waiting
        → IsInHand p w g.node g.worker
        → IsSplit T.times waiting g.updates rest → IsHeldFor T.times held (update_times rest)
        → IsCut T.times p g sent
        → NeverGoesBack T.times upper (input_frontier T.times p w g.node)
        → IsTrue (all_beyond T.times upper (update_times rest))
        → IsGive T.times p w g held sent
        × IsArranging T.times p (give_state T.times p w g held sent) g.node g.worker start
        (record { upper = upper; updates = g.updates } ∷ inserted) rest
        × IsTrue (all_beyond T.times upper held) }
{}
