//! The frontiers of a dataflow's inputs, one for each input: changes may still be fed at times
//! beyond it.
//!
//! A board keeps these frontiers, and so does a run that accepts changes without a board. The tests
//! that refuse a change or a frontier stand here alone, so that both refuse alike. A frontier only
//! moves forward: each of its new times is beyond the old frontier. An input whose frontier has no
//! times is closed.
ghost use Rattle.std.specs.Prelude.{◌≡◌, ◌<◌, IfErr, IfOk, OnOk, OnErr, None, Some, List, [], ◌∷◌, if◌then◌else◌, length, set};
ghost use Rattle.update.specs.Refusals.{OnlyMemory};
ghost use Rattle.lattice.specs.Frontiers.{is_beyond};
ghost use Rattle.plan.specs.Rules.{first_refusal};
ghost use Rattle.histories.specs.Histories.States.{change_to};
ghost use Rattle.outstanding.specs.Inputs.{front_at, first_inputs, feed_faults, advance_faults};

use antichain::{all_beyond, is_beyond};
use lattice::Minimum;
use plan::{NodeId, Plan};
use std::alloc::Global;
use std::marker::Model;
use update::{Refusal, Times, Update};

/// The largest number of changes that an input takes.
pub const MAX_CHANGES: usize = 1_048_576;

/// The largest absolute difference of a change.
pub const MAX_DIFFERENCE: u64 = 2_147_483_647;

/// The frontiers of the inputs of a plan. A contract sees the list of them, by node. It has no
/// times for an input that is closed, and none for a node that is no input.
#[derive(Drop)]
pub struct InputFrontiers<T> {
    by_node: Vec<Times<T>>,
}

impl<T> Model for InputFrontiers<T> {
    ghost use Rattle.std.specs.Prelude.{List};

    ghost Value = { List (List T) };

    ghost view = { λ f. f.by_node.items };
}

impl<T: Minimum> InputFrontiers<T> {
    /// The frontiers before anything has happened: each input's is the least time. Refused only
    /// with `OutOfMemory`.
    ///
    /// Cost: linear in the nodes.
    pub fn first(alloc: Global, plan: &Plan) -> Result<InputFrontiers<T>, Refusal>
        ensures first { IfOk result (λ frontiers. frontiers ≡ first_inputs T.times.least plan.now) }
        ensures refused { OnlyMemory result }
    {
        let mut by_node = Vec::with_capacity(alloc, plan.len())?;
        for n in 0..plan.len() {
            by_node.push(first_frontier(alloc, plan.node(NodeId::new(n)).is_input())?)?;
        }
        Ok(InputFrontiers { by_node })
    }

    /// The frontier of an input, as its elements. Takes no memory.
    pub fn of(&self, input: NodeId) -> &[T]
        requires { input < length self.now }
        ensures { result.now ≡ front_at input self.now }
    {
        self.by_node[input.number()].as_slice()
    }

    /// Whether a change may still be fed at a time, that is, whether the time is beyond the input's
    /// frontier. Takes no memory.
    ///
    /// Cost: linear in the elements of the frontier.
    pub fn is_open(&self, input: NodeId, t: &T) -> bool
        requires { input < length self.now }
        ensures { result ≡ is_beyond T.times (front_at input self.now) t.now }
    {
        is_beyond(self.of(input), t)
    }

    /// The refusal of a change, given how many changes the input has taken; `None` if the change is
    /// accepted. Takes no memory.
    ///
    /// The refusals, in the order in which they are tested:
    ///
    /// | Refusal | When |
    /// |---|---|
    /// | `WrongWidth` | the row does not have the input's width |
    /// | `ZeroWeight` | the difference is 0 |
    /// | `WeightTooLarge` | the absolute difference is above [`MAX_DIFFERENCE`] |
    /// | `TimePassed` | the time is not beyond the input's frontier |
    /// | `InputFull` | the input has taken [`MAX_CHANGES`] changes |
    ///
    /// Cost: linear in the elements of the input's frontier.
    pub fn feed_refusal(
        &self,
        plan: &Plan,
        taken: usize,
        input: NodeId,
        update: &Update<T>,
    ) -> Option<Refusal>
        requires within { input < length self.now }
        requires node { input < length plan.now }
        ensures { result ≡ first_refusal (feed_faults T.times plan.now (front_at input self.now)
            taken (change_to input update.now)) }
    {
        if update.row.width() != plan.width(input) {
            Some(Refusal::WrongWidth)
        } else if update.diff == 0 {
            Some(Refusal::ZeroWeight)
        } else if update.diff.unsigned_abs() > MAX_DIFFERENCE {
            Some(Refusal::WeightTooLarge)
        } else if !self.is_open(input, &update.time) {
            Some(Refusal::TimePassed)
        } else if taken >= MAX_CHANGES {
            Some(Refusal::InputFull)
        } else {
            None
        }
    }

    /// Moves an input's frontier forward to these times; with no times the input is closed. Refused
    /// only with `NotForward`, if one of the times is not beyond the old frontier; then nothing
    /// changes. Takes no memory.
    ///
    /// Cost: the product of the times and the elements of the old frontier.
    pub fn advance(&mut self, input: NodeId, times: Times<T>) -> Result<(), Refusal>
        requires { input < length self.old }
        ensures moved { OnOk result (self.new ≡ set self.old input times) }
        ensures accepted { OnOk result
            (first_refusal (advance_faults T.times (front_at input self.old) times) ≡ None) }
        ensures refused { IfErr result (λ refusal.
            first_refusal (advance_faults T.times (front_at input self.old) times) ≡ Some refusal) }
        ensures unchanged { OnErr result (self.new ≡ self.old) }
    {
        if !all_beyond(self.of(input), times.as_slice()) {
            return Err(Refusal::NotForward);
        }
        self.stand_at(input, times);
        Ok(())
    }

    /// Closes an input: its frontier then has no times. Takes no memory.
    pub fn close(&mut self, input: NodeId)
        requires { input < length self.old }
        ensures { self.new ≡ set self.old input [] }
    {
        let none = Vec::new(*self.by_node.allocator());
        self.stand_at(input, none.into());
    }

    /// Replaces an input's frontier by these times. It is not tested whether they are beyond the
    /// old frontier, as [`InputFrontiers::advance`] does. Takes no memory.
    pub fn stand_at(&mut self, input: NodeId, times: Times<T>)
        requires { input < length self.old }
        ensures { self.new ≡ set self.old input times }
    {
        self.by_node[input.number()] = times;
    }
}

// The frontier of a node before anything has happened: the least time at an input, no times
// elsewhere.
fn first_frontier<T: Minimum>(alloc: Global, is_input: bool) -> Result<Times<T>, Refusal>
    ensures first { IfOk result (λ times. times ≡ (if is_input then T.times.least ∷ [] else [])) }
    ensures refused { OnlyMemory result }
{
    let mut times = Vec::new(alloc);
    if is_input {
        times.push(T::minimum())?;
    }
    Ok(times.into())
}
