//! An engine carries out the commands of a script. The loop over the lines knows two things of it:
//! for which session it stands, and that it answers each command as the definition of that session
//! says. How the engine stores rows is its own business.
//!
//! An engine answers questions once it has caught up, which means that no accepted change is still
//! in flight. Catching up is a trait of its own, because workers on threads need more for it than
//! one worker on the caller's thread. An engine may end the run if memory is refused, or by
//! refusals that have a cause in the session. For example, it may refuse with `Overflow` if the
//! accepted changes give some node a large bound.
ghost use Rattle.std.specs.Prelude.{◌≡◌, IsTrue, List, IfErr, OnOk};
ghost use Rattle.update.specs.declared.refusal.Refusal.{Refusal};
ghost use Rattle.plan.specs.declared.node.Node.{Node};
ghost use Rattle.grammar.specs.Commands.{is_input_of, is_view_of};
ghost use Rattle.engines.specs.Answers.{TakesChange, TakesFrontier, TakesSince, FindsRows, FindsChanges, FindsFrontier};
ghost use Rattle.engines.specs.Engines.{EndsRun};
ghost use Rattle.engines.specs.Bitemporal.{BitemporalSession};

use antichain::Antichain;
use lattice::Bitime;
use plan::NodeId;
use std::alloc::Global;
use update::{Bag, Refusal, Update, Updates};

/// Carries out commands on a plan.
pub trait Engine {
    /// The engine's plan.
    ghost plan: { Self → List Node };

    /// The engine stands for this session, so it answers commands as the session does.
    ghost stands: { Self → BitemporalSession → Type 0 };

    /// No accepted change is still in flight, so questions can be answered.
    ghost caught_up: { Self → Type 0 };

    /// A question in this session may be refused with this refusal, which then ends the run.
    ghost ends: { List Node → BitemporalSession → Refusal → Type 0 };

    /// Adds a change to an input.
    fn change(
        &mut self,
        alloc: Global,
        input: NodeId,
        update: Update<Bitime>,
    ) -> Result<(), Refusal>
        requires { IsTrue (is_input_of (plan self.old) input) }
        ensures plan { plan self.new ≡ plan self.old }
        ensures answered { (s : BitemporalSession) → stands self.old s
            → TakesChange (plan self.old) s (record { input = input; update = update })
            (stands self.new) result };

    /// Moves the frontier of an input. If it has no times, the input is closed.
    fn advance(
        &mut self,
        alloc: Global,
        input: NodeId,
        frontier: &Antichain<Bitime>,
    ) -> Result<(), Refusal>
        requires { IsTrue (is_input_of (plan self.old) input) }
        ensures plan { plan self.new ≡ plan self.old }
        ensures answered { (s : BitemporalSession) → stands self.old s
            → TakesFrontier (plan self.old) s input frontier.now (stands self.new) result };

    /// Moves the frontier from which a view may be read.
    fn allow(
        &mut self,
        alloc: Global,
        view: NodeId,
        frontier: &Antichain<Bitime>,
    ) -> Result<(), Refusal>
        requires { IsTrue (is_view_of (plan self.old) view) }
        ensures plan { plan self.new ≡ plan self.old }
        ensures answered { (s : BitemporalSession) → stands self.old s
            → TakesSince (plan self.old) s view frontier.now (stands self.new) result };

    /// Answers the rows of a view at a time.
    fn read(&mut self, alloc: Global, view: NodeId, time: Bitime) -> Result<Bag, Refusal>
        requires view { IsTrue (is_view_of (plan self.old) view) }
        requires caught_up { caught_up self.old }
        ensures plan { plan self.new ≡ plan self.old }
        ensures stands { (s : BitemporalSession) → stands self.old s → stands self.new s }
        ensures answered { (s : BitemporalSession) → stands self.old s
            → FindsRows (ends (plan self.old) s) (plan self.old) s view time result };

    /// Answers the changes of a view at the times that its frontier has passed.
    fn changes(&mut self, alloc: Global, view: NodeId) -> Result<Updates<Bitime>, Refusal>
        requires view { IsTrue (is_view_of (plan self.old) view) }
        requires caught_up { caught_up self.old }
        ensures plan { plan self.new ≡ plan self.old }
        ensures stands { (s : BitemporalSession) → stands self.old s → stands self.new s }
        ensures answered { (s : BitemporalSession) → stands self.old s
            → FindsChanges (ends (plan self.old) s) (plan self.old) s view result };

    /// Answers the frontier of a view.
    fn frontier(&mut self, alloc: Global, view: NodeId) -> Result<Antichain<Bitime>, Refusal>
        requires view { IsTrue (is_view_of (plan self.old) view) }
        requires caught_up { caught_up self.old }
        ensures plan { plan self.new ≡ plan self.old }
        ensures stands { (s : BitemporalSession) → stands self.old s → stands self.new s }
        ensures answered { (s : BitemporalSession) → stands self.old s
            → FindsFrontier (ends (plan self.old) s) (plan self.old) s view result };

    /// A refusal in `ends` ends the run and is never printed as a line.
    ghost ending: { (p : List Node) (s : BitemporalSession) (refusal : Refusal) → ends p s refusal
        → EndsRun refusal };
}

/// An engine that catches up on the caller's thread.
pub trait CatchUp: Engine {
    /// Carries out everything that is still in flight. After a refusal the engine may stand for no
    /// session.
    fn catch_up(&mut self, alloc: Global) -> Result<(), Refusal>
        ensures plan { Self.plan self.new ≡ Self.plan self.old }
        ensures stands { (s : BitemporalSession) → Self.stands self.old s
            → OnOk result (Self.stands self.new s) }
        ensures caught_up { OnOk result (Self.caught_up self.new) }
        ensures refused { (s : BitemporalSession) → Self.stands self.old s
            → IfErr result (Self.ends (Self.plan self.old) s) };
}
