//! What a client does in its turn: each call waits until the board is at home.
//!
//! Each call is one event of the client, and its answer is right for the state that its tenure
//! found. Its clause is that of its twin in `client`, but that the board is never away.
ghost use Rattle.std.specs.Prelude.{◌≡◌, ◌≤◌, ◌<◌, ◌↔◌, [], None, Ok, IsTrue, length};
ghost use Rattle.antichain.specs.Antichains.{SameElements};
ghost use Rattle.update.specs.Refusals.{IsRefusalBy};
ghost use Rattle.update.specs.declared.refusal.Refusal.TheVariants.{OutOfMemory};
ghost use Rattle.plan.specs.Nodes.{is_output};
ghost use Rattle.histories.specs.declared.event.Event.TheVariants.{Advance, Allow, Feed};
ghost use Rattle.histories.specs.Histories.{IsInput};
ghost use Rattle.histories.specs.Histories.Dataflows.{node_of};
ghost use Rattle.histories.specs.Histories.States.{change_to};
ghost use Rattle.shared_board.specs.Calls.{AreListed, HasLooked, IsAnsweredInTurn, IsDoneInTurn, IsRead};
ghost use Rattle.shared_board.specs.Found.{IsChangesRefusalFound, IsReadRefusalFound, WasQuiet, WasTooLarge, feed_refusal_found, frontier_found};
ghost use Rattle.shared_board.specs.Tenures.{advance_refusal_in, allow_refusal_in, state_found, opening_in};

use crate::actor::Actor;
use crate::actor::entry::enter;
use crate::protocol::BoardProtocol;
use antichain::Antichain;
use lattice::Minimum;
use plan::NodeId;
use std::sync::Wait;
use update::{Bag, Refusal, Update};

impl<T: Minimum, P: BoardProtocol<T>> Actor<T, P> {
    /// The actor looks. Takes no memory.
    pub fn look<R: Wait>(&mut self, rt: &R)
        ensures { HasLooked self.old self.new }
    {
        let mut tenure = enter(rt, &self.hub, &mut self.pass);
        let board = tenure.state();
        board.look(self.number);
        self.accepted = board.accepted();
        self.pass = Some(tenure.leave());
    }

    /// A client changes an input's table. Refused as `Board::feed` says, and then it looks.
    pub fn feed<R: Wait>(&mut self, rt: &R, input: NodeId, update: Update<T>) -> Result<(), Refusal>
        requires client { (opening_in self.old.seen).dataflow.workers ≤ self.old.number }
        requires input { IsInput (opening_in self.old.seen).dataflow input }
        ensures { IsDoneInTurn self.old self.new
            (Feed self.old.number (change_to input update))
            (feed_refusal_found T.times self.old self.new (change_to input update))
            (IsRefusalBy (feed_refusal_found T.times self.old self.new
            (change_to input update)))
            result }
    {
        let mut tenure = enter(rt, &self.hub, &mut self.pass);
        let board = tenure.state();
        let told = board.feed(self.number, input, update);
        self.accepted = board.accepted();
        self.pass = Some(tenure.leave());
        told
    }

    /// A client moves an input's frontier forward. Refused as `Board::advance` says, and then it
    /// looks.
    pub fn advance<R: Wait>(&mut self, rt: &R, input: NodeId, times: &[T]) -> Result<(), Refusal>
        requires client { (opening_in self.old.seen).dataflow.workers ≤ self.old.number }
        requires input { IsInput (opening_in self.old.seen).dataflow input }
        ensures { IsDoneInTurn self.old self.new (Advance self.old.number input times.now)
            (advance_refusal_in T.times (state_found T.times self.new) input times.now)
            (IsRefusalBy (advance_refusal_in T.times (state_found T.times self.new)
            input times.now))
            result }
    {
        let mut tenure = enter(rt, &self.hub, &mut self.pass);
        let board = tenure.state();
        let told = board.advance(self.number, input, times);
        self.accepted = board.accepted();
        self.pass = Some(tenure.leave());
        told
    }

    /// A client closes an input. Never refused. Takes no memory.
    pub fn close<R: Wait>(&mut self, rt: &R, input: NodeId)
        requires client { (opening_in self.old.seen).dataflow.workers ≤ self.old.number }
        requires input { IsInput (opening_in self.old.seen).dataflow input }
        ensures { IsDoneInTurn self.old self.new (Advance self.old.number input []) None
            (λ refusal. ⊥) (Ok result) }
    {
        let mut tenure = enter(rt, &self.hub, &mut self.pass);
        let board = tenure.state();
        board.close(self.number, input);
        self.accepted = board.accepted();
        self.pass = Some(tenure.leave());
    }

    /// Readers of a view give up its past: from then on it may be read only at times beyond these.
    /// Refused as `Board::allow` says, and then it looks.
    pub fn allow<R: Wait>(&mut self, rt: &R, view: NodeId, times: &[T]) -> Result<(), Refusal>
        requires client { (opening_in self.old.seen).dataflow.workers ≤ self.old.number }
        requires within { view < length (opening_in self.old.seen).dataflow.nodes }
        requires view { IsTrue (is_output (node_of (opening_in self.old.seen).dataflow view)) }
        ensures { IsDoneInTurn self.old self.new (Allow self.old.number view times.now)
            (allow_refusal_in T.times (state_found T.times self.new) view times.now)
            (IsRefusalBy (allow_refusal_in T.times (state_found T.times self.new)
            view times.now))
            result }
    {
        let mut tenure = enter(rt, &self.hub, &mut self.pass);
        let board = tenure.state();
        let told = board.allow(self.number, view, times);
        self.accepted = board.accepted();
        self.pass = Some(tenure.leave());
        told
    }

    /// The frontier of a view. Refused only with `OutOfMemory`.
    pub fn frontier<R: Wait>(&mut self, rt: &R, view: NodeId) -> Result<Antichain<T>, Refusal>
        requires within { view < length (opening_in self.old.seen).dataflow.nodes }
        ensures { IsAnsweredInTurn self.old self.new
            (λ found. SameElements found (frontier_found T.times self.old self.new view))
            (λ refusal. refusal ≡ OutOfMemory) result }
    {
        let mut tenure = enter(rt, &self.hub, &mut self.pass);
        let board = tenure.state();
        let found = board.frontier(self.number, view);
        self.accepted = board.accepted();
        self.pass = Some(tenure.leave());
        found
    }

    /// A view's rows at a time: the query, computed from scratch, on the changes fed up to that
    /// time. Refused as `Board::read` says.
    pub fn read<R: Wait>(&mut self, rt: &R, view: NodeId, t: T) -> Result<Bag, Refusal>
        requires within { view < length (opening_in self.old.seen).dataflow.nodes }
        requires view { IsTrue (is_output (node_of (opening_in self.old.seen).dataflow view)) }
        ensures { IsAnsweredInTurn self.old self.new
            (λ bag. IsRead T.times self.old self.new view t bag)
            (IsReadRefusalFound T.times self.old self.new view t) result }
    {
        let mut tenure = enter(rt, &self.hub, &mut self.pass);
        let board = tenure.state();
        let rows = board.read(self.number, view, t);
        self.accepted = board.accepted();
        self.pass = Some(tenure.leave());
        rows
    }

    /// A view's changes at the times that its frontier has passed. Refused as `Board::changes`
    /// says.
    pub fn changes<R: Wait>(&mut self, rt: &R, view: NodeId) -> Result<Vec<Update<T>>, Refusal>
        requires within { view < length (opening_in self.old.seen).dataflow.nodes }
        requires view { IsTrue (is_output (node_of (opening_in self.old.seen).dataflow view)) }
        ensures { IsAnsweredInTurn self.old self.new
            (λ us. AreListed T.times self.old self.new T.cmp view us.items)
            (IsChangesRefusalFound T.times self.old self.new view) result }
    {
        let mut tenure = enter(rt, &self.hub, &mut self.pass);
        let board = tenure.state();
        let changes = board.changes(self.number, view);
        self.accepted = board.accepted();
        self.pass = Some(tenure.leave());
        changes
    }

    /// Whether the board is quiet. Never refused.
    ///
    /// Cost: linear in the nodes times the workers, and that of `Board::input_has_passed` for each
    /// held time.
    pub fn is_quiet<R: Wait>(&mut self, rt: &R) -> bool
        ensures { IsAnsweredInTurn self.old self.new
            (λ quiet. IsTrue quiet ↔ WasQuiet T.times self.old self.new) (λ refusal. ⊥)
            (Ok result) }
    {
        let mut tenure = enter(rt, &self.hub, &mut self.pass);
        let board = tenure.state();
        let quiet = board.is_quiet(self.number);
        self.accepted = board.accepted();
        self.pass = Some(tenure.leave());
        quiet
    }

    /// Whether a worker told that a number is too large with the changes accepted so far. Takes no
    /// memory.
    pub fn is_too_large<R: Wait>(&mut self, rt: &R) -> bool
        ensures { IsAnsweredInTurn self.old self.new
            (λ large. IsTrue large → WasTooLarge T.times self.old self.new T.cmp)
            (λ refusal. ⊥) (Ok result) }
    {
        let mut tenure = enter(rt, &self.hub, &mut self.pass);
        let board = tenure.state();
        let large = board.is_too_large();
        board.look(self.number);
        self.accepted = board.accepted();
        self.pass = Some(tenure.leave());
        large
    }
}
