//! What the events of a worker make of what it has computed at a node and not given yet. The
//! functions do nothing.
ghost use Rattle.std.specs.Prelude.{◌≡◌, ◌≤◌, ℕ, ℤ, Bool, List, [], ◌++◌, IsTrue, false};
ghost use Rattle.std.specs.List.{list_all};
ghost use Rattle.update.specs.Bags.{Alike};
ghost use Rattle.update.specs.Updates.{as_of, size};
ghost use Rattle.update.specs.declared.change.Update.{Update};
ghost use Rattle.plan.specs.Nodes.{key_width, is_linear, is_reduction};
ghost use Rattle.plan.specs.declared.node.Node.{Node};
ghost use Rattle.linear.specs.Applied.{linear_output};
ghost use Rattle.linear.specs.Ports.{is_port};
ghost use Rattle.histories.specs.declared.event.Bundle.{Bundle};
ghost use Rattle.histories.specs.declared.event.Emission.{Emission};
ghost use Rattle.histories.specs.declared.event.Event.{Event};
ghost use Rattle.histories.specs.declared.event.Event.TheVariants.{Take};
ghost use Rattle.histories.specs.Histories.Dataflows.{Dataflow, node_of};
ghost use Rattle.histories.specs.Histories.States.{State, update_times};
ghost use Rattle.histories.specs.Histories.NodeLaws.{received_at};
ghost use Rattle.histories.specs.Histories.{initial_state, next_state, give_state, state_after, IsTake, IsGive, IsAllowed, IsLegal};
ghost use Rattle.operator_laws.specs.GatheredUpdates.{is_of, IsCut, IsInHand, IsPiece, IsSplit, IsStamped, IsGathering, IsHeldFor};

use lattice::Minimum;

/// Before the first event nothing waits at any node that is no reduction.
pub fn gathering_begins<T: Minimum>()
    ensures { (p : Dataflow) (n k : ℕ) → is_reduction (node_of p n) ≡ false
        → IsGathering T.times p (initial_state T.times p) n k [] }
{}

/// Every other event preserves the invariant: what clients and other workers do, what the worker
/// itself does at other nodes, and that it turns to held times.
pub fn gathered_elsewhere<T: Minimum>()
    ensures { (p : Dataflow) (w : State T) (n k : ℕ) (waiting : List (Update T))
        → IsGathering T.times p w n k waiting
        → (e : Event T) → IsAllowed T.times p w e → is_of n k e ≡ false
        → IsGathering T.times p (next_state T.times p w e) n k waiting }
{}

/// In a legal history the updates of a bundle that waits are beyond its stamp.
pub fn waiting_bundles_are_stamped<T: Minimum>()
    ensures { (p : Dataflow) (h : List (Event T)) → IsLegal T.times p h
        → (number : ℕ) (bundle : Bundle T)
        → IsTake T.times p (state_after T.times p h) number bundle
        → IsStamped T.times bundle }
{}

/// What a node makes of a bundle waits from the take of the bundle on.
pub fn gathering_takes<T: Minimum>()
    ensures { (p : Dataflow) (w : State T) (number : ℕ) (bundle : Bundle T)
        → (out waiting : List (Update T))
        → IsGathering T.times p w bundle.place.node bundle.place.worker waiting
        → IsStamped T.times bundle
        → IsPiece T.times (key_width p.nodes (node_of p bundle.place.node))
        (node_of p bundle.place.node)
        (received_at w bundle.place.node bundle.place.worker) bundle.place.port bundle.updates out
        → IsGathering T.times p (next_state T.times p w (Take number bundle))
        bundle.place.node bundle.place.worker (out ++ waiting) }
{}

/// A linear node makes a piece of each bundle.
pub fn linear_piece<T: Minimum>()
    ensures { (k : ℕ) (node : Node) → IsTrue (is_linear node) → (port : ℕ)
        → IsTrue (is_port node port)
        → (received : ℕ → List (Update T)) (us : List (Update T))
        → IsPiece T.times k node received port us (linear_output node us) }
{}

/// Any part of what waits may be given, and the rest held back. What is then held may be any list
/// of times that is held for the rest.
pub fn gathering_gives<T: Minimum>()
    ensures { (p : Dataflow) (w : State T) (g : Emission T) (waiting rest : List (Update T))
        → (held : List T) (sent : List (Bundle T))
        → IsGathering T.times p w g.node g.worker waiting → IsInHand p w g.node g.worker
        → IsSplit T.times waiting g.updates rest → IsHeldFor T.times held (update_times rest)
        → IsCut T.times p g sent
        → IsGive T.times p w g held sent
        × IsGathering T.times p (give_state T.times p w g held sent) g.node g.worker rest }
{}

/// A worker may also give nothing and hold everything back.
pub fn gathering_holds_back<T: Minimum>()
    ensures { (p : Dataflow) (w : State T) (n k : ℕ) (waiting : List (Update T)) (held : List T)
        → IsGathering T.times p w n k waiting → IsInHand p w n k
        → IsHeldFor T.times held (update_times waiting)
        → IsGive T.times p w (record { node = n; worker = k; updates = [] }) held []
        × IsGathering T.times p
        (give_state T.times p w (record { node = n; worker = k; updates = [] }) held [])
        n k waiting }
{}

/// All that waits may be given consolidated, and it may be held back consolidated.
pub fn consolidated_splits<T: Minimum>()
    ensures { (waiting out : List (Update T))
        → ((t : T) → Alike (as_of T.times t out) (as_of T.times t waiting))
        → size out ≤ size waiting
        → ((test : List ℤ → T → Bool) → IsTrue (list_all (λ u. test u.row u.time) waiting)
        → IsTrue (list_all (λ u. test u.row u.time) out))
        → IsSplit T.times waiting out [] × IsSplit T.times waiting [] out }
{}

/// It does not matter in which order updates wait.
pub fn waits_in_any_order<T: Minimum>()
    ensures { (p : Dataflow) (w : State T) (n k : ℕ) (us vs : List (Update T))
        → IsGathering T.times p w n k (us ++ vs) → IsGathering T.times p w n k (vs ++ us) }
{}
