//! What a give makes of a worker's own, and that it is allowed. The functions do nothing.
ghost use Rattle.std.specs.Prelude.{◌≡◌, ◌≢◌, ◌<◌, ℕ, Bool, List, [], ◌∷◌, None, IsTrue, length};
ghost use Rattle.lattice.specs.Frontiers.{all_beyond};
ghost use Rattle.update.specs.declared.change.Update.{Update};
ghost use Rattle.plan.specs.Nodes.{arranged_by};
ghost use Rattle.batch.specs.Descriptions.{BatchState};
ghost use Rattle.trace.specs.Readings.{Insertion};
ghost use Rattle.histories.specs.declared.event.Bundle.{Bundle};
ghost use Rattle.histories.specs.Histories.{IsGive, give_state};
ghost use Rattle.histories.specs.Histories.Cuts.{cut};
ghost use Rattle.histories.specs.Histories.Dataflows.{Dataflow, IsDataflow, node_of};
ghost use Rattle.histories.specs.Histories.States.{State};
ghost use Rattle.desk_laws.specs.Observed.{HoldsBeyondNewest};
ghost use Rattle.desk_laws.specs.Own.{DeskView, IsArrangedOn, IsOwn, IsSameAt, StayHolding, due_on, waits_on};
ghost use Rattle.operator_laws.specs.GatheredUpdates.{IsCut, IsHeldFor};
ghost use Rattle.desk_laws.specs.declared.hand.Hand.TheVariants.{Free, Kept, Ready, Sealed};

use lattice::Minimum;

/// A worker may give nothing, and hold back what lies on the desk for the node that it has in hand.
pub fn kept_is_held_back<T: Minimum>()
    ensures { (p : Dataflow) → IsDataflow p → (w : State T) (k n : ℕ) → n < length p.nodes
        → (d : DeskView T) (held : List T) (more : Bool)
        → IsHeldFor T.times held (due_on d n (node_of p n))
        → IsOwn T.times p w k d (Kept n more)
        → IsGive T.times p w (record { node = n; worker = k; updates = [] }) held []
        × IsOwn T.times p (give_state T.times p w
        (record { node = n; worker = k; updates = [] }) held []) k d Free }
{}

/// What is ready may be given, at a node that is not arranged, and what lies on the desk for the
/// node be held back.
pub fn ready_is_given<T: Minimum>()
    ensures { (p : Dataflow) → IsDataflow p → (w : State T) (k n : ℕ) → n < length p.nodes
        → (d : DeskView T) (held : List T) (us : List (Update T)) (sent : List (Bundle T))
        → arranged_by (node_of p n) ≡ None
        → IsHeldFor T.times held (due_on d n (node_of p n))
        → IsCut T.times p (record { node = n; worker = k; updates = us }) sent
        → IsOwn T.times p w k d (Ready n us)
        → IsGive T.times p w (record { node = n; worker = k; updates = us }) held sent
        × IsOwn T.times p (give_state T.times p w
        (record { node = n; worker = k; updates = us }) held sent) k d Free }
{}

/// A batch in hand may be given, and is inserted into the spine that the joins read; an empty one
/// is given as nothing. What the worker holds at the node from then on is beyond the frontier at
/// which the batch ends.
pub fn sealed_is_given<T: Minimum>()
    ensures some { (p : Dataflow) → IsDataflow p → (w : State T) (k n : ℕ) → n < length p.nodes
        → (d : DeskView T) (batch : BatchState T) (held : List T)
        → IsHeldFor T.times held (due_on d n (node_of p n))
        → IsOwn T.times p w k d (Sealed n batch) → batch.updates ≢ []
        → IsCut T.times p (record { node = n; worker = k; updates = batch.updates })
        (cut T.times p (record { node = n; worker = k; updates = batch.updates }))
        → (c : DeskView T) → ((m : ℕ) → m ≢ n → IsSameAt m d c) → StayHolding T.times p d c
        → waits_on c n (node_of p n) ≡ waits_on d n (node_of p n)
        → ((start : List T) (inserted : List (Insertion T))
        → IsArrangedOn T.times p d n start inserted
        → IsArrangedOn T.times p c n start
        (record { upper = batch.description.upper; updates = batch.updates } ∷ inserted))
        → IsGive T.times p w (record { node = n; worker = k; updates = batch.updates }) held
        (cut T.times p (record { node = n; worker = k; updates = batch.updates }))
        × IsOwn T.times p (give_state T.times p w
        (record { node = n; worker = k; updates = batch.updates }) held
        (cut T.times p (record { node = n; worker = k; updates = batch.updates }))) k c Free }
    ensures none { (p : Dataflow) → IsDataflow p → (w : State T) (k n : ℕ) → n < length p.nodes
        → (d : DeskView T) (batch : BatchState T) (held : List T)
        → IsHeldFor T.times held (due_on d n (node_of p n))
        → IsOwn T.times p w k d (Sealed n batch) → batch.updates ≡ []
        → IsGive T.times p w (record { node = n; worker = k; updates = [] }) held []
        × IsOwn T.times p (give_state T.times p w
        (record { node = n; worker = k; updates = [] }) held []) k d Free }
    ensures beyond { (p : Dataflow) → IsDataflow p → (w : State T) (k n : ℕ)
        → n < length p.nodes → (d : DeskView T) (batch : BatchState T) (held : List T)
        → IsHeldFor T.times held (due_on d n (node_of p n))
        → IsOwn T.times p w k d (Sealed n batch)
        → IsTrue (all_beyond T.times batch.description.upper held) }
{}

/// Once a worker has given what it had ready, or a batch, all that it holds at the node is beyond
/// the input frontier that its newest take there found.
pub fn given_is_beyond<T: Minimum>()
    ensures ready { (p : Dataflow) (w : State T) (k n : ℕ) (d : DeskView T) (us : List (Update T))
        (held : List T) (sent : List (Bundle T)) → IsHeldFor T.times held (due_on d n (node_of p n))
        → IsOwn T.times p w k d (Ready n us)
        → HoldsBeyondNewest T.times (give_state T.times p w
        (record { node = n; worker = k; updates = us }) held sent) n k }
    ensures sealed { (p : Dataflow) (w : State T) (k n : ℕ) (d : DeskView T) (batch : BatchState T)
        (held : List T) (sent : List (Bundle T)) → IsHeldFor T.times held (due_on d n (node_of p n))
        → IsOwn T.times p w k d (Sealed n batch)
        → HoldsBeyondNewest T.times (give_state T.times p w
        (record { node = n; worker = k; updates = batch.updates }) held sent) n k }
{}
