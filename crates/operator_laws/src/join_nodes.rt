//! What the events of a worker make of a join. The functions do nothing.
ghost use Rattle.std.specs.Prelude.{◌≡◌, ◌≢◌, ℕ, List, [], ◌∷◌, ◌++◌, false, Some, None, ◌<◌, length};
ghost use Rattle.update.specs.declared.change.Update.{Update};
ghost use Rattle.plan.specs.Nodes.{arranged_by, key_width};
ghost use Rattle.plan.specs.declared.node.Node.{Node};
ghost use Rattle.plan.specs.declared.node.Node.TheVariants.{Join};
ghost use Rattle.trace.specs.Readings.{Insertion, all_updates};
ghost use Rattle.join.specs.Pairs.{pairs};
ghost use Rattle.histories.specs.declared.event.Bundle.{Bundle};
ghost use Rattle.histories.specs.declared.event.Emission.{Emission};
ghost use Rattle.histories.specs.declared.event.Event.{Event};
ghost use Rattle.histories.specs.declared.event.Event.TheVariants.{Take};
ghost use Rattle.histories.specs.Histories.Dataflows.{Dataflow, node_of, source_of};
ghost use Rattle.histories.specs.Histories.Cuts.{cut};
ghost use Rattle.histories.specs.Histories.States.{State, place, update_times};
ghost use Rattle.histories.specs.Histories.{next_state, give_state, IsTake, IsGive, IsAllowed};
ghost use Rattle.operator_laws.specs.GatheredUpdates.{is_of, IsCut, IsInHand, IsPiece, IsSplit, IsStamped, IsHeldFor};
ghost use Rattle.operator_laws.specs.JoinNodes.{is_at_port, IsAnswer, IsJoining, IsQueued};

use lattice::Minimum;

/// A join makes a piece of a bundle at either port: the pairs with all that was taken at the other.
pub fn join_piece<T: Minimum>()
    ensures left { (k left right : ℕ) (node : Node) → node ≡ Join left right
        → (received : ℕ → List (Update T)) (us out : List (Update T))
        → IsAnswer T.times (pairs T.times k us (received 1)) us (received 1) out
        → IsPiece T.times k node received 0 us out }
    ensures right { (k left right : ℕ) (node : Node) → node ≡ Join left right
        → (received : ℕ → List (Update T)) (us out : List (Update T))
        → IsAnswer T.times (pairs T.times k (received 0) us) us (received 0) out
        → IsPiece T.times k node received 1 us out }
{}

/// Every other event preserves the invariant.
pub fn joined_elsewhere<T: Minimum>()
    ensures { (p : Dataflow) (w : State T) (n k : ℕ) (left right : List (Insertion T))
        → (waiting : List (Update T))
        → IsJoining T.times p w n k left right waiting
        → (e : Event T) → IsAllowed T.times p w e → is_of n k e ≡ false
        → IsJoining T.times p (next_state T.times p w e) n k left right waiting }
{}

/// At its left port a join takes the oldest insertion that waits. What it answers of it with the
/// right side's waits.
pub fn joined_takes_left<T: Minimum>()
    ensures { (p : Dataflow) (w : State T) (n k : ℕ) (left right inserted : List (Insertion T))
        → (waiting out : List (Update T)) (bundle : Bundle T)
        → bundle.place ≡ place n 0 k → IsStamped T.times bundle
        → IsJoining T.times p w n k left right waiting → IsQueued w n 0 k inserted left
        → IsTake T.times p w 0 bundle
        → IsAnswer T.times
        (pairs T.times (key_width p.nodes (node_of p n)) bundle.updates (all_updates right))
        bundle.updates (all_updates right) out
        → (i : Insertion T) × (i.updates ≡ bundle.updates)
        × IsJoining T.times p (next_state T.times p w (Take 0 bundle)) n k
        (i ∷ left) right (out ++ waiting)
        × IsQueued (next_state T.times p w (Take 0 bundle)) n 0 k inserted (i ∷ left) }
{}

/// And so at its right port.
pub fn joined_takes_right<T: Minimum>()
    ensures { (p : Dataflow) (w : State T) (n k : ℕ) (left right inserted : List (Insertion T))
        → (waiting out : List (Update T)) (bundle : Bundle T)
        → bundle.place ≡ place n 1 k → IsStamped T.times bundle
        → IsJoining T.times p w n k left right waiting → IsQueued w n 1 k inserted right
        → IsTake T.times p w 0 bundle
        → IsAnswer T.times
        (pairs T.times (key_width p.nodes (node_of p n)) (all_updates left) bundle.updates)
        bundle.updates (all_updates left) out
        → (i : Insertion T) × (i.updates ≡ bundle.updates)
        × IsJoining T.times p (next_state T.times p w (Take 0 bundle)) n k
        left (i ∷ right) (out ++ waiting)
        × IsQueued (next_state T.times p w (Take 0 bundle)) n 1 k inserted (i ∷ right) }
{}

/// Any part of what waits may be given, all of it at once among them.
pub fn joined_gives<T: Minimum>()
    ensures { (p : Dataflow) (w : State T) (g : Emission T) (left right : List (Insertion T))
        → (waiting rest : List (Update T)) (held : List T) (sent : List (Bundle T))
        → IsJoining T.times p w g.node g.worker left right waiting → IsInHand p w g.node g.worker
        → IsSplit T.times waiting g.updates rest → IsHeldFor T.times held (update_times rest)
        → IsCut T.times p g sent
        → IsGive T.times p w g held sent
        × IsJoining T.times p (give_state T.times p w g held sent) g.node g.worker left right rest }
{}

/// What waits at a port that reads a trace on its own worker stays, whatever happens but a take
/// from it and a give at the source.
pub fn queued_elsewhere<T: Minimum>()
    ensures { (p : Dataflow) (w : State T) (n port k source : ℕ)
        → source_of p n port ≡ Some source → arranged_by (node_of p n) ≡ None
        → (inserted taken : List (Insertion T)) → IsQueued w n port k inserted taken
        → (e : Event T) → IsAllowed T.times p w e → is_at_port n port k source e ≡ false
        → IsQueued (next_state T.times p w e) n port k inserted taken }
{}

/// A batch that is given at the source, cut as a routing cuts it, waits there as one bundle more.
pub fn queued_inserts<T: Minimum>()
    ensures { (p : Dataflow) (w : State T) (n port : ℕ) (g : Emission T)
        → source_of p n port ≡ Some g.node → arranged_by (node_of p n) ≡ None
        → g.worker < p.workers → n < length p.nodes → port < 2 → g.updates ≢ []
        → (ts upper : List T) (inserted taken : List (Insertion T))
        → IsQueued w n port g.worker inserted taken
        → IsQueued (give_state T.times p w g ts (cut T.times p g)) n port g.worker
        (record { upper = upper; updates = g.updates } ∷ inserted) taken }
{}
