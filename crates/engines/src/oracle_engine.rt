//! The oracle engine: it answers commands by the plain query of crate `oracle` alone. It has no
//! workers, boards or batches, and it stores no differences.
//!
//! It keeps the accepted changes of each input, in the order in which they came, the inputs'
//! frontiers, and from which times on each view may be read. Each answer is computed from these,
//! from scratch. The invariant is what the query requires: each input has a list, at its index
//! among the inputs, and the rows in it have the input's width. Nothing computed is stored, so
//! nothing can be out of date. This engine is slow, but it is easy to see why it is right. It tests
//! commands with the same function as a board (crate `machine`), so both refuse alike.
ghost use Rattle.std.specs.Prelude.{◌≡◌, ◌<◌, ◌++◌, ℕ, [], ◌∷◌, None, Some, length, map, replicate, set, slice_index_or, IfErr, IfOk, IsTrue, OnErr, OnOk};
ghost use Rattle.lattice.specs.Bitimes.{bitime_times};
ghost use Rattle.lattice.specs.declared.product.Pair.{Pair};
ghost use Rattle.lattice.specs.Frontiers.{is_beyond};
ghost use Rattle.lattice.specs.Pairs.{make_pair};
ghost use Rattle.plan.specs.Changes.{open_for};
ghost use Rattle.update.specs.Refusals.{OnlyMemory, IsRefusalBy};
ghost use Rattle.outstanding.specs.Inputs.{front_at};
ghost use Rattle.grammar.specs.Commands.{is_input_of, is_view_of};
ghost use Rattle.engines.specs.OracleStates.{IsRegister, Records, AreFrontiers, with_entry, with_input, with_view, entry_refusal, input_refusal, view_refusal};
ghost use Rattle.engines.specs.Bitemporal.{opening_session};
ghost use Rattle.engines.specs.Bounds.{EndsByBound};

use crate::engine::{CatchUp, Engine};
use antichain::{Antichain, is_beyond};
use lattice::{Bitime, Minimum};
use oracle::{differences, evaluate, inputs_before};
use outstanding::InputFrontiers;
use plan::{NodeId, Plan};
use std::alloc::Global;
use std::marker::Model;
use update::{Bag, Refusal, Times, Update, Updates};

/// The accepted changes and the inputs' frontiers, and nothing derived from them. A contract sees
/// the plan, the changes and the frontiers.
#[derive(Drop)]
pub struct OracleEngine {
    plan: Plan,
    // The changes of each input, oldest first, in the order of the inputs' numbers.
    changes: Vec<Vec<Update<Bitime>>>,
    // The frontier of each input.
    inputs: InputFrontiers<Bitime>,
    // The frontier beyond which each view may be read, by node number.
    sinces: InputFrontiers<Bitime>,
}

impl Model for OracleEngine {
    ghost use Rattle.std.specs.Prelude.{ℕ, map};
    ghost use Rattle.lattice.specs.declared.product.Pair.{Pair};
    ghost use Rattle.engines.specs.OracleStates.{Register, IsRegister};

    ghost Value = { Register (Pair ℕ ℕ) };

    ghost view = { λ engine. record {
      plan = engine.plan;
      changes = map (λ v. v.items) engine.changes.items;
      inputs = engine.inputs;
      sinces = engine.sinces;
    } };

    ghost invariant = { λ engine. IsRegister (record {
      plan = engine.plan;
      changes = map (λ v. v.items) engine.changes.items;
      inputs = engine.inputs;
      sinces = engine.sinces;
    }) };
}

// One empty list of changes for each input.
fn no_changes(alloc: Global, inputs: usize) -> Result<Vec<Vec<Update<Bitime>>>, Refusal>
    ensures none { IfOk result (λ lists. map (λ v. v.items) lists.items ≡ replicate inputs []) }
    ensures refused { OnlyMemory result }
{
    let mut lists = Vec::new(alloc);
    for _input in 0..inputs {
        lists.push(Vec::new(alloc))?;
    }
    Ok(lists)
}

// Appends a change to list number `place`.
fn push_change(
    lists: &mut Vec<Vec<Update<Bitime>>>,
    place: usize,
    update: Update<Bitime>,
) -> Result<(), Refusal>
    requires { place < length lists.old.items }
    ensures pushed { OnOk result
        (map (λ v. v.items) lists.new.items ≡ set (map (λ v. v.items) lists.old.items) place
        (slice_index_or (map (λ v. v.items) lists.old.items) place [] ++ update ∷ [])) }
    ensures refused { OnlyMemory result }
    ensures unchanged { OnErr result
        (map (λ v. v.items) lists.new.items ≡ map (λ v. v.items) lists.old.items) }
{
    lists[place].push(update)?;
    Ok(())
}

// The times that are still open for a view: the elements of the frontiers of all inputs that feed
// it.
fn open_for(
    alloc: Global,
    plan: &Plan,
    inputs: &InputFrontiers<Bitime>,
    view: NodeId,
) -> Result<Vec<Bitime>, Refusal>
    requires view { view < length plan.now }
    requires inputs { length inputs.now ≡ length plan.now }
    ensures open { IfOk result
        (λ times. times.items ≡ open_for bitime_times plan.now (λ i. front_at i inputs.now) view) }
    ensures refused { OnlyMemory result }
{
    let mut times = Vec::new(alloc);
    for n in 0..plan.len() {
        let input = NodeId::new(n);
        if plan.node(input).is_input() && plan.reaches(input, view) {
            times.extend_from_slice(inputs.of(input))?;
        }
    }
    Ok(times)
}

// The frontier of each input, in the order of the inputs' numbers.
fn frontiers(
    alloc: Global,
    plan: &Plan,
    inputs: &InputFrontiers<Bitime>,
) -> Result<Vec<Antichain<Bitime>>, Refusal>
    requires { length inputs.now ≡ length plan.now }
    ensures frontiers { IfOk result
        (λ all. AreFrontiers bitime_times plan.now inputs.now all.items) }
    ensures refused { OnlyMemory result }
{
    let mut all = Vec::new(alloc);
    for n in 0..plan.len() {
        if plan.node(NodeId::new(n)).is_input() {
            let frontier = Antichain::least_of(alloc, inputs.of(NodeId::new(n)))?;
            all.push(frontier)?;
        }
    }
    Ok(all)
}

// From the least time on, for each node.
fn first_sinces(alloc: Global, plan: &Plan) -> Result<InputFrontiers<Bitime>, Refusal>
    ensures count { IfOk result (λ sinces. length sinces ≡ length plan.now) }
    ensures least { IfOk result (λ sinces. (n : ℕ) → n < length plan.now
        → front_at n sinces ≡ make_pair 0 0 ∷ []) }
    ensures refused { OnlyMemory result }
{
    let mut sinces = InputFrontiers::first(alloc, plan)?;
    for n in 0..plan.len() {
        let mut least = Vec::new(alloc);
        least.push(Bitime::minimum())?;
        sinces.stand_at(NodeId::new(n), Times::from(least));
    }
    Ok(sinces)
}

impl OracleEngine {
    /// An engine to which nothing has happened yet. Refused only with `OutOfMemory`.
    pub fn open(alloc: Global, plan: &Plan) -> Result<OracleEngine, Refusal>
        ensures plan { IfOk result (λ engine. engine.plan ≡ plan.now) }
        ensures stands { IfOk result
            (λ engine. Records engine (opening_session plan.now)) }
        ensures refused { OnlyMemory result }
    {
        let plan = plan.clone()?;
        let inputs = InputFrontiers::first(alloc, &plan)?;
        let sinces = first_sinces(alloc, &plan)?;
        let changes = no_changes(alloc, plan.inputs(alloc)?.len())?;
        Ok(OracleEngine {
            plan,
            changes,
            inputs,
            sinces,
        })
    }

    // Accepts a change, or refuses it as a board would.
    fn take_change(&mut self, input: NodeId, update: Update<Bitime>) -> Result<(), Refusal>
        requires { IsTrue (is_input_of self.old.plan input) }
        ensures taken { OnOk result
            (self.new ≡ with_entry (record { input = input; update = update }) self.old) }
        ensures accepted { OnOk result
            (entry_refusal bitime_times self.old (record {
              input = input;
              update = update;
            }) ≡ None) }
        ensures refused { IfErr result
            (λ refusal. IsRefusalBy
            (entry_refusal bitime_times self.old (record {
              input = input;
              update = update;
            })) refusal) }
        ensures unchanged { OnErr result (self.new ≡ self.old) }
        ensures register { IsRegister self.old }
    {
        let place = inputs_before(&self.plan, input);
        let taken = self.changes[place].len();
        match self.inputs.feed_refusal(&self.plan, taken, input, &update) {
            Some(refusal) => Err(refusal),
            None => push_change(&mut self.changes, place, update),
        }
    }

    // Accepts a new frontier of an input, or refuses it as a board would.
    fn take_frontier(&mut self, input: NodeId, times: Times<Bitime>) -> Result<(), Refusal>
        requires { IsTrue (is_input_of self.old.plan input) }
        ensures taken { OnOk result (self.new ≡ with_input input times self.old) }
        ensures accepted { OnOk result (input_refusal bitime_times self.old input times ≡ None) }
        ensures refused { IfErr result
            (λ refusal. input_refusal bitime_times self.old input times ≡ Some refusal) }
        ensures unchanged { OnErr result (self.new ≡ self.old) }
    {
        self.inputs.advance(input, times)
    }

    // Accepts a new since of a view, or refuses it as a board would.
    fn take_since(&mut self, view: NodeId, times: Times<Bitime>) -> Result<(), Refusal>
        requires { IsTrue (is_view_of self.old.plan view) }
        ensures taken { OnOk result (self.new ≡ with_view view times self.old) }
        ensures accepted { OnOk result (view_refusal bitime_times self.old view times ≡ None) }
        ensures refused { IfErr result
            (λ refusal. view_refusal bitime_times self.old view times ≡ Some refusal) }
        ensures unchanged { OnErr result (self.new ≡ self.old) }
        ensures register { IsRegister self.old }
    {
        self.sinces.advance(view, times)
    }
}

impl Engine for OracleEngine {
    ghost use Rattle.std.specs.Prelude.{⊤};
    ghost use Rattle.engines.specs.OracleStates.{Records};
    ghost use Rattle.engines.specs.Bounds.{EndsByBound, ends_by_bound};

    ghost plan = { λ r. r.plan };

    ghost stands = { λ r s. Records r s };

    ghost caught_up = { λ r. ⊤ };

    ghost ends = { λ p s refusal. EndsByBound p s refusal };

    fn change(
        &mut self,
        _alloc: Global,
        input: NodeId,
        update: Update<Bitime>,
    ) -> Result<(), Refusal> {
        self.take_change(input, update)
    }

    fn advance(
        &mut self,
        alloc: Global,
        input: NodeId,
        frontier: &Antichain<Bitime>,
    ) -> Result<(), Refusal> {
        let times = Times::from_slice(alloc, frontier.elements())?;
        self.take_frontier(input, times)
    }

    fn allow(
        &mut self,
        alloc: Global,
        view: NodeId,
        frontier: &Antichain<Bitime>,
    ) -> Result<(), Refusal> {
        let times = Times::from_slice(alloc, frontier.elements())?;
        self.take_since(view, times)
    }

    fn read(&mut self, alloc: Global, view: NodeId, time: Bitime) -> Result<Bag, Refusal> {
        self.plan.known();
        let open = open_for(alloc, &self.plan, &self.inputs, view)?;
        if is_beyond(&open, &time) {
            return Err(Refusal::NotPassed);
        }
        if !is_beyond(self.sinces.of(view), &time) {
            return Err(Refusal::GivenUp);
        }
        evaluate(alloc, &self.plan, view, &self.changes, time)
    }

    fn changes(&mut self, alloc: Global, view: NodeId) -> Result<Updates<Bitime>, Refusal> {
        self.plan.known();
        if !is_beyond(self.sinces.of(view), &Bitime::minimum()) {
            return Err(Refusal::GivenUp);
        }
        let frontiers = frontiers(alloc, &self.plan, &self.inputs)?;
        let changes = differences(alloc, &self.plan, view, &self.changes, &frontiers)?;
        Ok(Updates::from(changes))
    }

    fn frontier(&mut self, alloc: Global, view: NodeId) -> Result<Antichain<Bitime>, Refusal> {
        let open = open_for(alloc, &self.plan, &self.inputs, view)?;
        let frontier = Antichain::least_of(alloc, &open)?;
        frontier.known();
        Ok(frontier)
    }

    ghost ending = { λ p s refusal ends. ends_by_bound p s refusal ends };
}

impl CatchUp for OracleEngine {
    fn catch_up(&mut self, _alloc: Global) -> Result<(), Refusal> {
        Ok(())
    }
}
