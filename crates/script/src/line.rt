//! One line of a script: its command goes to the engine, and the answer is printed.
ghost use Rattle.std.specs.Prelude.{◌≡◌, [], false, IfErr, IfOk, IsTrue, OnOk};
ghost use Rattle.update.specs.Refusals.{OnlyMemory};
ghost use Rattle.update.specs.declared.refusal.Refusal.TheVariants.{OutOfMemory};
ghost use Rattle.grammar.specs.Commands.{IsAbout, IsQuestion};
ghost use Rattle.grammar.specs.declared.command.Command.TheVariants.{Allow, Input, View};
ghost use Rattle.grammar.specs.ScriptModels.{ScriptModel};
ghost use Rattle.engines.specs.Engines.{EndsRun, IsTold};
ghost use Rattle.script.specs.RunEnds.{IsEnd, failures};
ghost use Rattle.output.specs.Outs.{Wrote, Broke};
ghost use Rattle.output.specs.Lines.{refused_text};
ghost use Rattle.engines.specs.Answers.{TakesSince};
ghost use Rattle.engines.specs.Bitemporal.{BitemporalSession};
ghost use Rattle.script.specs.Text.{input_command_refusal, carry_out, after_command, frontier_made, piece};
ghost use Rattle.script.specs.declared.fault.RunFault.TheVariants.{Refused};

use crate::fault::RunFault;
use crate::printer::{print_changes, print_frontier, print_rows};
use antichain::Antichain;
use engines::{CatchUp, Engine};
use grammar::{Command, CommandLine, InputCommand, Script, ViewCommand};
use lattice::Bitime;
use output::{Out, OutputBuffer};
use plan::NodeId;
use std::alloc::Global;
use update::{Refusal, Times, Update};

// Whether the refusal ends the run. Such a refusal is never printed as a line.
pub(crate) fn ends_run(refusal: Refusal) -> bool
    ensures ends { IsTrue result → EndsRun refusal }
    ensures goes_on { result ≡ false → EndsRun refusal → ⊥ }
{
    matches!(
        refusal,
        Refusal::OutOfMemory | Refusal::Overflow | Refusal::NoThread
    )
}

// Hands a command that changes an input to the engine.
pub(crate) fn hand_over<E: Engine>(
    alloc: Global,
    engine: &mut E,
    command: &InputCommand,
) -> Result<(), Refusal>
    requires about { IsAbout (E.plan engine.old) (Input command.now) }
    ensures plan { E.plan engine.new ≡ E.plan engine.old }
    ensures answered { (s : BitemporalSession) → E.stands engine.old s
        → IsTold (input_command_refusal (E.plan engine.old) s command.now)
        (E.stands engine.new (carry_out (E.plan engine.old) s command.now))
        (E.stands engine.new s) result }
{
    match command {
        InputCommand::Change {
            input,
            time,
            diff,
            row,
        } => engine.change(
            alloc,
            *input,
            Update {
                time: *time,
                row: row.copy(),
                diff: *diff,
            },
        ),
        InputCommand::Advance { input, times } => {
            let frontier = frontier_of(alloc, times)?;
            engine.advance(alloc, *input, &frontier)
        }
        InputCommand::Close { input } => {
            let closed = Antichain::new(alloc);
            engine.advance(alloc, *input, &closed)
        }
    }
}

// The frontier that the times of a line make: the least of them.
fn frontier_of(alloc: Global, times: &Times<Bitime>) -> Result<Antichain<Bitime>, Refusal>
    ensures made { IfOk result (λ frontier. frontier ≡ frontier_made times.now) }
    ensures refused { OnlyMemory result }
{
    let frontier = Antichain::least_of(alloc, times.as_slice())?;
    frontier.known();
    Ok(frontier)
}

// Hands to the engine from which times on a view may be read.
pub(crate) fn hand_since<E: Engine>(
    alloc: Global,
    engine: &mut E,
    view: NodeId,
    times: &Times<Bitime>,
) -> Result<(), Refusal>
    requires about { IsAbout (E.plan engine.old) (Allow view times.now) }
    ensures plan { E.plan engine.new ≡ E.plan engine.old }
    ensures answered { (s : BitemporalSession) → E.stands engine.old s
        → TakesSince (E.plan engine.old) s view (frontier_made times.now) (E.stands engine.new)
        result }
{
    let frontier = frontier_of(alloc, times)?;
    engine.allow(alloc, view, &frontier)
}

// Ends the run. The whole text of the earlier lines is written first.
pub(crate) fn end_run<W: Out>(
    buffer: &mut OutputBuffer,
    out: &mut W,
    refusal: Refusal,
) -> Result<(), RunFault>
    ensures ends { OnOk result ⊥ }
    ensures broke { IfErr result
        (λ fault. Broke W.took out.old buffer.old [] (failures fault) out.new) }
    ensures overflow { IfErr result
        (λ fault. fault ≡ Refused 10 → W.took out.old buffer.old 0 out.new) }
    ensures known { IfErr result (IsEnd (λ met. met ≡ refusal)) }
{
    buffer.flush(out)?;
    Err(RunFault::from(refusal))
}

// Prints the refusal of a command, or ends the run if the refusal does.
fn refuse<W: Out>(
    buffer: &mut OutputBuffer,
    out: &mut W,
    line: u64,
    refusal: Refusal,
) -> Result<(), RunFault>
    ensures goes_on { OnOk result (EndsRun refusal → ⊥) }
    ensures wrote { OnOk result
        (Wrote W.took out.old buffer.old (refused_text line refusal) out.new buffer.new) }
    ensures broke { IfErr result
        (λ fault. Broke W.took out.old buffer.old [] (failures fault) out.new) }
    ensures overflow { IfErr result
        (λ fault. fault ≡ Refused 10 → W.took out.old buffer.old 0 out.new) }
    ensures known { IfErr result (IsEnd (λ met. (met ≡ refusal) × EndsRun refusal)) }
{
    if ends_run(refusal) {
        return end_run(buffer, out, refusal);
    }
    buffer.print_refused(line, refusal)?;
    Ok(())
}

// Runs a line that changes an input. It prints nothing unless the engine refuses the command.
fn run_update<E: Engine, W: Out>(
    alloc: Global,
    engine: &mut E,
    line: u64,
    command: &InputCommand,
    buffer: &mut OutputBuffer,
    out: &mut W,
) -> Result<(), RunFault>
    requires about { IsAbout (E.plan engine.old) (Input command.now) }
    ensures plan { E.plan engine.new ≡ E.plan engine.old }
    ensures ran { (t : ScriptModel) (s : BitemporalSession) → t.plan ≡ E.plan engine.old
        → E.stands engine.old s
        → OnOk result (E.stands engine.new (after_command t.plan s (Input command.now))
        × Wrote W.took out.old buffer.old (piece t s line (Input command.now)) out.new buffer.new) }
    ensures broke { IfErr result
        (λ fault. Broke W.took out.old buffer.old [] (failures fault) out.new) }
    ensures known { (s : BitemporalSession) → E.stands engine.old s
        → IfErr result (IsEnd (λ refusal. ⊥)) }
{
    match hand_over(alloc, engine, command) {
        Ok(()) => Ok(()),
        Err(refusal) => refuse(buffer, out, line, refusal),
    }
}

// Runs a line that gives up a part of a view's past. It prints nothing unless the engine refuses
// it.
fn run_allow<E: Engine, W: Out>(
    alloc: Global,
    engine: &mut E,
    line: u64,
    view: NodeId,
    times: &Times<Bitime>,
    buffer: &mut OutputBuffer,
    out: &mut W,
) -> Result<(), RunFault>
    requires about { IsAbout (E.plan engine.old) (Allow view times.now) }
    ensures plan { E.plan engine.new ≡ E.plan engine.old }
    ensures ran { (t : ScriptModel) (s : BitemporalSession) → t.plan ≡ E.plan engine.old
        → E.stands engine.old s
        → OnOk result (E.stands engine.new (after_command t.plan s (Allow view times.now))
        × Wrote W.took out.old buffer.old (piece t s line (Allow view times.now)) out.new
        buffer.new) }
    ensures broke { IfErr result
        (λ fault. Broke W.took out.old buffer.old [] (failures fault) out.new) }
    ensures known { (s : BitemporalSession) → E.stands engine.old s
        → IfErr result (IsEnd (λ refusal. ⊥)) }
{
    match hand_since(alloc, engine, view, times) {
        Ok(()) => Ok(()),
        Err(refusal) => refuse(buffer, out, line, refusal),
    }
}

// Runs a line that asks about a view, once the engine has caught up.
fn run_query<E: Engine, W: Out>(
    alloc: Global,
    engine: &mut E,
    script: &Script,
    line: u64,
    command: &ViewCommand,
    buffer: &mut OutputBuffer,
    out: &mut W,
) -> Result<(), RunFault>
    requires plan { script.now.plan ≡ E.plan engine.old }
    requires about { IsAbout (E.plan engine.old) (View command.now) }
    requires caught_up { E.caught_up engine.old }
    ensures plan { E.plan engine.new ≡ E.plan engine.old }
    ensures ran { (s : BitemporalSession) → E.stands engine.old s
        → OnOk result (E.stands engine.new s × Wrote W.took out.old buffer.old
        (piece script.now s line (View command.now)) out.new buffer.new) }
    ensures broke { (s : BitemporalSession) → E.stands engine.old s
        → IfErr result (λ fault. Broke W.took out.old buffer.old
        (piece script.now s line (View command.now)) (failures fault) out.new) }
    ensures overflow { IfErr result
        (λ fault. fault ≡ Refused 10 → W.took out.old buffer.old 0 out.new) }
    ensures known { (s : BitemporalSession) → E.stands engine.old s
        → IfErr result (IsEnd (E.ends script.now.plan s)) }
{
    match command {
        ViewCommand::Read { view, time } => match engine.read(alloc, *view, *time) {
            Ok(rows) => print_rows(buffer, out, script.name(*view), *time, &rows),
            Err(refusal) => refuse(buffer, out, line, refusal),
        },
        ViewCommand::Changes { view } => match engine.changes(alloc, *view) {
            Ok(changes) => print_changes(buffer, out, script.name(*view), changes.as_slice()),
            Err(refusal) => refuse(buffer, out, line, refusal),
        },
        ViewCommand::Frontier { view } => match engine.frontier(alloc, *view) {
            Ok(frontier) => print_frontier(buffer, out, script.name(*view), frontier.elements()),
            Err(refusal) => refuse(buffer, out, line, refusal),
        },
    }
}

// Lets the engine catch up, then runs a line that asks about a view.
fn catch_up_and_query<E: CatchUp, W: Out>(
    alloc: Global,
    engine: &mut E,
    script: &Script,
    line: u64,
    command: &ViewCommand,
    buffer: &mut OutputBuffer,
    out: &mut W,
) -> Result<(), RunFault>
    requires plan { script.now.plan ≡ E.plan engine.old }
    requires about { IsAbout (E.plan engine.old) (View command.now) }
    ensures plan { E.plan engine.new ≡ E.plan engine.old }
    ensures ran { (s : BitemporalSession) → E.stands engine.old s
        → OnOk result (E.stands engine.new s × Wrote W.took out.old buffer.old
        (piece script.now s line (View command.now)) out.new buffer.new) }
    ensures broke { (s : BitemporalSession) → E.stands engine.old s
        → IfErr result (λ fault. Broke W.took out.old buffer.old
        (piece script.now s line (View command.now)) (failures fault) out.new) }
    ensures overflow { IfErr result
        (λ fault. fault ≡ Refused 10 → W.took out.old buffer.old 0 out.new) }
    ensures known { (s : BitemporalSession) → E.stands engine.old s
        → IfErr result (IsEnd (E.ends script.now.plan s)) }
{
    match engine.catch_up(alloc) {
        Ok(()) => run_query(alloc, engine, script, line, command, buffer, out),
        Err(refusal) => end_run(buffer, out, refusal),
    }
}

/// Runs a line: the engine carries out its command, and the line's text is printed.
pub(crate) fn run_line<E: CatchUp, W: Out>(
    alloc: Global,
    engine: &mut E,
    script: &Script,
    line: &CommandLine,
    buffer: &mut OutputBuffer,
    out: &mut W,
) -> Result<(), RunFault>
    requires plan { script.now.plan ≡ E.plan engine.old }
    requires about { IsAbout (E.plan engine.old) line.now.command }
    ensures plan { E.plan engine.new ≡ E.plan engine.old }
    ensures ran { (s : BitemporalSession) → E.stands engine.old s
        → OnOk result (E.stands engine.new (after_command script.now.plan s line.now.command)
        × Wrote W.took out.old buffer.old
        (piece script.now s line.now.line line.now.command) out.new buffer.new) }
    ensures broke { (s : BitemporalSession) → E.stands engine.old s
        → IfErr result (λ fault. Broke W.took out.old buffer.old
        (piece script.now s line.now.line line.now.command) (failures fault) out.new) }
    ensures overflow { (s : BitemporalSession) → E.stands engine.old s
        → IfErr result (λ fault. fault ≡ Refused 10
        → IsQuestion line.now.command × W.took out.old buffer.old 0 out.new) }
    ensures known { (s : BitemporalSession) → E.stands engine.old s
        → IfErr result (IsEnd (E.ends script.now.plan s)) }
{
    match &line.command {
        Command::Input(command) => {
            run_update(alloc, engine, line.line, command, buffer, out)?;
            buffer.pass_on(out)?;
            Ok(())
        }
        Command::Allow { view, times } => {
            run_allow(alloc, engine, line.line, *view, times, buffer, out)?;
            buffer.pass_on(out)?;
            Ok(())
        }
        Command::View(command) => {
            catch_up_and_query(alloc, engine, script, line.line, command, buffer, out)
        }
    }
}
