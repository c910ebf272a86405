//! The lines of changes, on their way to the output.
ghost use Rattle.std.specs.Prelude.{◌≡◌, OnOk, string_bytes};
ghost use Rattle.output.specs.Outs.{Wrote};
ghost use Rattle.importer.specs.Changes.{change_text};

use crate::fault::ImportFault;
use crate::records::Change;
use dictionary::split;
use output::{Out, OutputBuffer};
use std::alloc::{AllocError, Global};

/// How many changes a table takes.
const MOST_CHANGES: u64 = 1_048_576;

/// The text that waits for the output, and how many changes it and the written text have.
#[derive(Drop)]
pub(crate) struct ChangeWriter {
    pub(crate) buffer: OutputBuffer,
    line: String,
    pub(crate) changes: u64,
    pub(crate) zeros: u64,
}

// Makes the text the line of a change of this difference.
fn write_change(
    text: &mut String,
    table: &str,
    change: &Change,
    diff: i64,
) -> Result<(), AllocError>
    ensures { OnOk result (string_bytes text.new
        ≡ change_text table.now change.now.valid change.now.revision diff (string_bytes change.now.row)) }
{
    let valid = change.valid;
    let revision = change.revision;
    let row = change.row.as_str();
    text.clear();
    writeln!(text, "change {table} {valid} {revision} {diff}{row}")
}

// Adds the line to the text that waits, and writes that if it is large enough.
fn pass_line<W: Out>(buffer: &mut OutputBuffer, out: &mut W, line: &str) -> Result<(), ImportFault>
    ensures { OnOk result (Wrote W.took out.old buffer.old line.now out.new buffer.new) }
{
    buffer.push(line)?;
    buffer.pass_on(out)?;
    Ok(())
}

impl ChangeWriter {
    /// A writer that has written nothing. Takes no memory.
    pub(crate) fn new(alloc: Global) -> ChangeWriter {
        ChangeWriter {
            buffer: OutputBuffer::new(alloc),
            line: String::new(alloc),
            changes: 0,
            zeros: 0,
        }
    }

    // Writes the line of a change of this difference.
    fn put_change<W: Out>(
        &mut self,
        out: &mut W,
        table: &str,
        change: &Change,
        diff: i64,
    ) -> Result<(), ImportFault>
        ensures { OnOk result (Wrote W.took out.old self.old.buffer
            (change_text table.now change.now.valid change.now.revision diff (string_bytes change.now.row))
            out.new self.new.buffer) }
    {
        write_change(&mut self.line, table, change, diff)?;
        pass_line(&mut self.buffer, out, self.line.as_str())
    }

    // Writes the change so many times.
    fn put_times<W: Out>(
        &mut self,
        out: &mut W,
        table: &str,
        change: &Change,
        diff: i64,
        times: u64,
    ) -> Result<(), ImportFault> {
        for _ in 0..times {
            self.put_change(out, table, change, diff)?;
        }
        Ok(())
    }

    /// Writes the change, in pieces if its difference is too large for one. If it is 0, the change
    /// is left out and counted. `false` if there would be more changes than a table takes; nothing
    /// is written then.
    pub(crate) fn put<W: Out>(
        &mut self,
        out: &mut W,
        table: &str,
        change: &Change,
    ) -> Result<bool, ImportFault> {
        let pieces = split(change.weight);
        let changes = self.changes.saturating_add(pieces.count());
        if changes > MOST_CHANGES {
            return Ok(false);
        }
        self.changes = changes;
        self.put_times(out, table, change, pieces.full, pieces.times)?;
        if pieces.rest != 0 {
            self.put_change(out, table, change, pieces.rest)?;
        }
        if change.weight == 0 {
            self.zeros = self.zeros.saturating_add(1);
        }
        Ok(true)
    }

    /// Writes the line and a newline.
    pub(crate) fn put_line<W: Out>(&mut self, out: &mut W, line: &str) -> Result<(), ImportFault> {
        self.buffer.push(line)?;
        pass_line(&mut self.buffer, out, "\n")
    }

    /// Writes each line.
    pub(crate) fn put_lines<W: Out>(
        &mut self,
        out: &mut W,
        lines: &[String],
    ) -> Result<(), ImportFault> {
        for line in lines {
            self.put_line(out, line.as_str())?;
        }
        Ok(())
    }
}
