//! A worker tries to enter the board, and gives what it has in hand. One tenure.
//!
//! Of what is kept it gives nothing, and holds back what lies on the desk for the node. An empty
//! batch is given as nothing too. What is ready moves to the board. If another actor has the board,
//! or memory is refused, then it comes back, and the hand is as it was.
ghost use Rattle.std.specs.Prelude.{◌≡◌, ◌<◌, [], Some, false, IfErr, IfOk, IsTrue, OnErr, OnOk, length};
ghost use Rattle.update.specs.Refusals.{OnlyMemory};
ghost use Rattle.update.specs.declared.refusal.Refusal.TheVariants.{OutOfMemory};
ghost use Rattle.plan.specs.Widths.{width_of};
ghost use Rattle.linear.specs.Widths.{are_wide};
ghost use Rattle.histories.specs.Histories.{IsGive};
ghost use Rattle.histories.specs.Histories.Cuts.{cut};
ghost use Rattle.histories.specs.Histories.Dataflows.{Dataflow};
ghost use Rattle.operator_laws.specs.GatheredUpdates.{IsCut};
ghost use Rattle.shared_board.specs.Found.{dataflow_of};
ghost use Rattle.shared_board.specs.Tenures.{state_left};
ghost use Rattle.desk_laws.specs.Own.{IsHandOn, hand_node};
ghost use Rattle.desk_laws.specs.declared.hand.Hand.{Hand};
ghost use Rattle.desk_laws.specs.declared.hand.Hand.TheVariants.{Free};
ghost use Rattle.desk.specs.Desks.{IsComputed};
ghost use Rattle.steps.specs.Steps.{HasLeftLater, HasSent, HasTriedToGive, IsPutDown, LooksAtMost, emission_of, gave_or_busy, output_of, without_output};
ghost use Rattle.steps.specs.Workers.{IsRightOf};

use crate::step::Step;
use columns::UpdateList;
use desk::{Desk, Hand};
use desk_laws::Output;
use lattice::Minimum;
use machine::{Emission, Routing};
use operator::updates_of;
use plan::{NodeId, Plan};
use shared_board::{Actor, BoardProtocol};
use std::alloc::Global;
use std::mem;
use update::Refusal;

// No updates.
fn nothing<T: Minimum>(alloc: Global) -> UpdateList<T>
    ensures { result ≡ [] }
{
    Vec::new(alloc).into()
}

// What is given of what is in hand. What is ready leaves the hand; of a batch it is a copy.
fn take_output<T: Minimum>(alloc: Global, hand: &mut Hand<T>) -> Result<UpdateList<T>, Refusal>
    ensures output { IfOk result (λ list. list ≡ output_of hand.old) }
    ensures emptied { OnOk result (hand.new ≡ without_output hand.old) }
    ensures same { OnErr result (hand.new ≡ hand.old) }
    ensures only { OnlyMemory result }
{
    match hand {
        Hand::Ready { updates, .. } => take_list(alloc, updates),
        Hand::Sealed { batch, .. } => updates_of(alloc, batch),
        _ => Ok(nothing(alloc)),
    }
}

// Takes an output out as a list. If memory was refused, then the output is as it was.
fn take_list<T: Minimum>(alloc: Global, output: &mut Output<T>) -> Result<UpdateList<T>, Refusal>
    ensures output { IfOk result (λ list. list ≡ output.old) }
    ensures emptied { OnOk result (output.new ≡ []) }
    ensures same { OnErr result (output.new ≡ output.old) }
    ensures only { OnlyMemory result }
{
    let taken = mem::replace(output, nothing(alloc).into());
    match taken.into_list(alloc) {
        Ok(list) => Ok(list),
        Err(back) => {
            *output = back;
            Err(Refusal::OutOfMemory)
        }
    }
}

// Puts back what was not given.
fn put_back<T: Minimum>(hand: &mut Hand<T>, output: UpdateList<T>)
    ensures { (before : Hand T) → hand.old ≡ without_output before → output ≡ output_of before
        → hand.new ≡ before }
{
    if let Hand::Ready { updates, .. } = hand {
        *updates = output.into();
    }
}

// Cuts what a worker computed into bundles, and tries to give it. The answer is whether it was
// given: else another actor had the board. The give must be allowed in the state that the worker
// left. Unless it is given, the updates are as they were. Refused only with `OutOfMemory`.
fn send<T: Minimum, P: BoardProtocol<T>>(
    alloc: Global,
    routing: &Routing,
    actor: &mut Actor<T, P>,
    node: NodeId,
    worker: usize,
    updates: &mut UpdateList<T>,
    held: Vec<T>,
) -> Result<bool, Refusal>
    requires routing { routing.now ≡ dataflow_of actor.old }
    requires own { worker ≡ actor.old.number }
    requires worker { actor.old.number < (dataflow_of actor.old).workers }
    requires within { node < length (dataflow_of actor.old).nodes }
    requires wide { IsTrue (are_wide (width_of (dataflow_of actor.old).nodes node) updates.old) }
    requires allowed { IsCut T.times (dataflow_of actor.old) (emission_of node worker updates.old)
        (cut T.times (dataflow_of actor.old) (emission_of node worker updates.old))
        → IsGive T.times (dataflow_of actor.old) (state_left T.times actor.old)
        (emission_of node worker updates.old) held.items
        (cut T.times (dataflow_of actor.old) (emission_of node worker updates.old)) }
    ensures sent { IfOk result (λ gave. HasSent T.times actor.old actor.new
        (emission_of node worker updates.old) held.items (gave_or_busy gave)) }
    ensures kept { IfOk result (λ gave. gave ≡ false → updates.new ≡ updates.old) }
    ensures same { OnErr result (updates.new ≡ updates.old) }
    ensures refused { IfErr result (λ refusal. (refusal ≡ OutOfMemory)
        × LooksAtMost actor.old actor.new) }
{
    let emission = Emission {
        node,
        worker,
        updates: mem::replace(updates, nothing(alloc)),
    };
    let cut = match routing.cut(alloc, emission) {
        Ok(cut) => cut,
        Err(back) => {
            *updates = back.updates;
            return Err(Refusal::OutOfMemory);
        }
    };
    match actor.try_give(cut, held.into()) {
        Ok(Ok(())) => Ok(true),
        Ok(Err(ungiven)) => {
            *updates = ungiven.cut.into_emission().updates;
            Err(Refusal::OutOfMemory)
        }
        Err(ungiven) => {
            *updates = ungiven.cut.into_emission().updates;
            Ok(false)
        }
    }
}

// What is in hand was given, so it is put down. A batch goes into the spine of its node.
fn put_down<T: Minimum>(desk: &mut Desk<T>, hand: &mut Hand<T>)
    requires on { (p : Dataflow) × IsHandOn T.times p desk.old hand.old }
    ensures down { (p : Dataflow) → IsHandOn T.times p desk.old hand.old
        → IsPutDown T.times p hand.old desk.old desk.new }
    ensures free { hand.new ≡ Free }
{
    let done = mem::replace(hand, Hand::Free);
    if let Hand::Sealed { node, batch } = done {
        desk.put_away(node, batch);
    }
}

// Tries to give what is in hand at its node. Unless it is given, the hand is as it was. Refused
// only with `OutOfMemory`.
pub(crate) fn give<T: Minimum, P: BoardProtocol<T>>(
    alloc: Global,
    plan: &Plan,
    routing: &Routing,
    actor: &mut Actor<T, P>,
    desk: &mut Desk<T>,
    hand: &mut Hand<T>,
    node: NodeId,
    number: usize,
) -> Result<Step, Refusal>
    requires plan { plan.now ≡ (dataflow_of actor.old).nodes }
    requires routing { routing.now ≡ dataflow_of actor.old }
    requires number { number ≡ actor.old.number }
    requires node { hand_node hand.old ≡ Some node }
    requires computed { IsComputed hand.old }
    requires right { IsRightOf T.times actor.old desk.old hand.old }
    ensures right { IsRightOf T.times actor.new desk.new hand.new }
    ensures tried { IfOk result (HasTriedToGive node actor.old actor.new hand.old hand.new) }
    ensures beyond { IfOk result (HasLeftLater T.times node actor.old actor.new hand.old) }
    ensures refused { IfErr result (λ refusal. (refusal ≡ OutOfMemory)
        × (hand.new ≡ hand.old) × LooksAtMost actor.old actor.new) }
{
    actor.known();
    let held = desk.held(alloc, plan, node)?;
    let mut output = take_output(alloc, hand)?;
    let answer = send(alloc, routing, actor, node, number, &mut output, held);
    actor.known();
    match answer {
        Ok(true) => {
            put_down(desk, hand);
            Ok(Step::Gave)
        }
        Ok(false) => {
            put_back(hand, output);
            Ok(Step::Busy)
        }
        Err(refusal) => {
            put_back(hand, output);
            Err(refusal)
        }
    }
}
