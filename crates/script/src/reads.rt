//! The rows of a view at two times, once a script has run.
//!
//! Here the lines of a script are only carried out: what they would write is not formed, and their
//! questions are not asked. Workers step once all lines are done, so a run for two reads does each
//! node's work once, however many questions the script has.
ghost use Rattle.std.specs.Prelude.{◌≡◌, IfErr, IfOk, IsTrue, OnOk};
ghost use Rattle.update.specs.Refusals.{OnlyMemory};
ghost use Rattle.update.specs.declared.refusal.Refusal.TheVariants.{OutOfMemory};
ghost use Rattle.grammar.specs.Commands.{IsAbout, is_view_of};
ghost use Rattle.engines.specs.Answers.{FindsRows};
ghost use Rattle.engines.specs.Engines.{EndsRun};
ghost use Rattle.script.specs.Reads.{EndsReads, FindsLastRows};
ghost use Rattle.engines.specs.Bitemporal.{BitemporalSession};
ghost use Rattle.script.specs.Text.{after_command, after_lines};

use crate::line::{ends_run, hand_over, hand_since};
use crews::Crew;
use engines::{CatchUp, Engine};
use grammar::{Command, Script};
use lattice::Bitime;
use plan::NodeId;
use session::Gate;
use std::alloc::Global;
use std::sync::Wait;
use std::thread::Threads;
use update::{Bag, Refusal};

/// Two reads of a view.
#[derive(Clone, Copy)]
pub struct TwoReads {
    /// The view.
    pub view: NodeId,
    /// The time of the first read.
    pub first: Bitime,
    /// The time of the second read.
    pub second: Bitime,
}

/// The rows of a read, or its refusal: 8 if the view's frontier has not passed the time, 9 if
/// readers gave up the time.
pub type Rows = Result<Bag, Refusal>;

// Carries out a command, but asks nothing. A refused command changes nothing.
fn follow<E: Engine>(alloc: Global, engine: &mut E, command: &Command) -> Result<(), Refusal>
    requires about { IsAbout (E.plan engine.old) command.now }
    ensures plan { E.plan engine.new ≡ E.plan engine.old }
    ensures stands { (s : BitemporalSession) → E.stands engine.old s
        → OnOk result (E.stands engine.new (after_command (E.plan engine.old) s command.now)) }
    ensures refused { OnlyMemory result }
{
    let told = match command {
        Command::Input(command) => hand_over(alloc, engine, command),
        Command::Allow { view, times } => hand_since(alloc, engine, *view, times),
        Command::View(_) => Ok(()),
    };
    match told {
        Err(Refusal::OutOfMemory) => Err(Refusal::OutOfMemory),
        _ => Ok(()),
    }
}

// Carries out all lines in order.
fn follow_all<E: Engine>(alloc: Global, engine: &mut E, script: &Script) -> Result<(), Refusal>
    requires plan { script.now.plan ≡ E.plan engine.old }
    ensures plan { E.plan engine.new ≡ E.plan engine.old }
    ensures stands { (s : BitemporalSession) → E.stands engine.old s
        → OnOk result (E.stands engine.new (after_lines script.now.plan s script.now.commands)) }
    ensures refused { OnlyMemory result }
{
    for line in script.command_lines() {
        follow(alloc, engine, &line.command)?;
    }
    Ok(())
}

// The answer to a read, or the refusal that ends all.
fn told(rows: Rows) -> Result<Rows, Refusal>
    ensures goes_on { IfOk result
        (λ told. told ≡ rows × IfErr told (λ refusal. EndsRun refusal → ⊥)) }
    ensures ends { IfErr result (λ refusal. rows ≡ Err refusal × EndsRun refusal) }
{
    match rows {
        Ok(bag) => Ok(Ok(bag)),
        Err(refusal) if ends_run(refusal) => Err(refusal),
        Err(refusal) => Ok(Err(refusal)),
    }
}

// Reads a view, once the engine has caught up.
fn ask<E: CatchUp>(
    alloc: Global,
    engine: &mut E,
    view: NodeId,
    time: Bitime,
) -> Result<Rows, Refusal>
    requires view { IsTrue (is_view_of (E.plan engine.old) view) }
    ensures plan { E.plan engine.new ≡ E.plan engine.old }
    ensures answered { (s : BitemporalSession) → E.stands engine.old s
        → IfOk result (λ rows. E.stands engine.new s
        × FindsRows (λ refusal. ⊥) (E.plan engine.old) s view time rows) }
    ensures ends { (s : BitemporalSession) → E.stands engine.old s
        → IfErr result (E.ends (E.plan engine.old) s) }
{
    engine.catch_up(alloc)?;
    told(engine.read(alloc, view, time))
}

// Reads a view at two times.
fn ask_twice<E: CatchUp>(
    alloc: Global,
    engine: &mut E,
    reads: TwoReads,
) -> Result<(Rows, Rows), Refusal>
    requires view { IsTrue (is_view_of (E.plan engine.old) reads.view) }
    ensures answered { (s : BitemporalSession) → E.stands engine.old s
        → IfOk result (λ rows.
        FindsRows (λ refusal. ⊥) (E.plan engine.old) s reads.view reads.first rows.0
        × FindsRows (λ refusal. ⊥) (E.plan engine.old) s reads.view reads.second rows.1) }
    ensures ends { (s : BitemporalSession) → E.stands engine.old s
        → IfErr result (E.ends (E.plan engine.old) s) }
{
    let first = ask(alloc, engine, reads.view, reads.first)?;
    let second = ask(alloc, engine, reads.view, reads.second)?;
    Ok((first, second))
}

/// Carries out all lines of a script but its questions, by 1 to 16 workers, and then reads a view
/// at two times. The rows of each read are the query, computed from scratch on the accepted changes
/// at or before its time.
///
/// | Refused with | When |
/// |---|---|
/// | `OutOfMemory` | an allocation was refused |
/// | `Overflow` | a number does not fit in 64 bits: then some node has a bound of 2 to the 63 or more |
/// | `NoThread` | a thread could not be made |
/// | `BadWorkers` | the number of workers is not 1 to 16 |
///
/// Cost: that of [`run_script`](crate::run_script) on the same lines with two reads at the end.
pub fn read_twice<R: Threads + Wait + Sync, G: Gate + Sync>(
    runtime: &R,
    alloc: Global,
    script: &Script,
    workers: u64,
    reads: TwoReads,
    gate: &G,
) -> Result<(Rows, Rows), Refusal>
    requires view { IsTrue (is_view_of script.now.plan reads.view) }
    ensures first { IfOk result (λ rows. FindsLastRows script.now reads.view reads.first rows.0) }
    ensures second { IfOk result (λ rows. FindsLastRows script.now reads.view reads.second rows.1) }
    ensures refused { IfErr result (EndsReads script.now) }
{
    let mut crew = Crew::open(runtime, alloc, script.plan(), workers as usize)?;
    follow_all(alloc, &mut crew, script)?;
    crew.run_ahead(alloc, gate)?;
    ask_twice(alloc, &mut crew, reads)
}
