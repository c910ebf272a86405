//! Prints answers line by line into the output buffer, which writes them in large pieces.
ghost use Rattle.std.specs.Prelude.{IfErr, OnOk};
ghost use Rattle.update.specs.Text.{entry_text};
ghost use Rattle.script.specs.RunEnds.{IsEnd, failures};
ghost use Rattle.output.specs.Outs.{Wrote, Broke};
ghost use Rattle.output.specs.Lines.{rows_text, changes_text, frontier_text, update_text, element_text};

use crate::fault::RunFault;
use lattice::Bitime;
use output::{Out, OutputBuffer};
use row::Row;
use update::{Bag, Update};

// Prints a row with its count.
fn print_entry<W: Out>(
    buffer: &mut OutputBuffer,
    out: &mut W,
    count: i64,
    row: &Row,
) -> Result<(), RunFault>
    ensures wrote { OnOk result
        (Wrote W.took out.old buffer.old
        (entry_text (record { row = row.now; count = count })) out.new buffer.new) }
    ensures broke { IfErr result
        (λ fault. Broke W.took out.old buffer.old
        (entry_text (record { row = row.now; count = count })) (failures fault) out.new) }
    ensures known { IfErr result (IsEnd (λ refusal. ⊥)) }
{
    buffer.print_row(count, row)?;
    buffer.pass_on(out)?;
    Ok(())
}

/// Prints the rows of a view at a time: the header with their number, then each row.
pub(crate) fn print_rows<W: Out>(
    buffer: &mut OutputBuffer,
    out: &mut W,
    view: &str,
    time: Bitime,
    rows: &Bag,
) -> Result<(), RunFault>
    ensures wrote { OnOk result
        (Wrote W.took out.old buffer.old
        (rows_text view.now time rows.now) out.new buffer.new) }
    ensures broke { IfErr result
        (λ fault. Broke W.took out.old buffer.old (rows_text view.now time rows.now)
        (failures fault) out.new) }
    ensures known { IfErr result (IsEnd (λ refusal. ⊥)) }
{
    buffer.print_read(view, time, rows.len())?;
    for i in 0..rows.len() {
        print_entry(buffer, out, rows.count(i), rows.row(i))?;
    }
    Ok(())
}

// Prints one change of a view.
fn print_update<W: Out>(
    buffer: &mut OutputBuffer,
    out: &mut W,
    update: &Update<Bitime>,
) -> Result<(), RunFault>
    ensures wrote { OnOk result
        (Wrote W.took out.old buffer.old (update_text update.now) out.new buffer.new) }
    ensures broke { IfErr result
        (λ fault. Broke W.took out.old buffer.old (update_text update.now)
        (failures fault) out.new) }
    ensures known { IfErr result (IsEnd (λ refusal. ⊥)) }
{
    buffer.print_update(update)?;
    buffer.pass_on(out)?;
    Ok(())
}

/// Prints the changes of a view: the header with their number, then each change.
pub(crate) fn print_changes<W: Out>(
    buffer: &mut OutputBuffer,
    out: &mut W,
    view: &str,
    changes: &[Update<Bitime>],
) -> Result<(), RunFault>
    ensures wrote { OnOk result
        (Wrote W.took out.old buffer.old
        (changes_text view.now changes.now) out.new buffer.new) }
    ensures broke { IfErr result
        (λ fault. Broke W.took out.old buffer.old (changes_text view.now changes.now)
        (failures fault) out.new) }
    ensures known { IfErr result (IsEnd (λ refusal. ⊥)) }
{
    buffer.print_count("changes", view, changes.len())?;
    for update in changes {
        print_update(buffer, out, update)?;
    }
    Ok(())
}

// Prints one element of a frontier.
fn print_element<W: Out>(
    buffer: &mut OutputBuffer,
    out: &mut W,
    time: &Bitime,
) -> Result<(), RunFault>
    ensures wrote { OnOk result
        (Wrote W.took out.old buffer.old (element_text time.now) out.new buffer.new) }
    ensures broke { IfErr result
        (λ fault. Broke W.took out.old buffer.old (element_text time.now)
        (failures fault) out.new) }
    ensures known { IfErr result (IsEnd (λ refusal. ⊥)) }
{
    buffer.print_element(*time)?;
    buffer.pass_on(out)?;
    Ok(())
}

/// Prints the frontier of a view: the header with the number of its elements, then each of them.
pub(crate) fn print_frontier<W: Out>(
    buffer: &mut OutputBuffer,
    out: &mut W,
    view: &str,
    elements: &[Bitime],
) -> Result<(), RunFault>
    ensures wrote { OnOk result
        (Wrote W.took out.old buffer.old
        (frontier_text view.now elements.now) out.new buffer.new) }
    ensures broke { IfErr result
        (λ fault. Broke W.took out.old buffer.old (frontier_text view.now elements.now)
        (failures fault) out.new) }
    ensures known { IfErr result (IsEnd (λ refusal. ⊥)) }
{
    buffer.print_count("frontier", view, elements.len())?;
    for time in elements {
        print_element(buffer, out, time)?;
    }
    Ok(())
}
