//! Text on its way to an output, collected and written in large pieces.
//!
//! A run prints many short lines, and each call of an output may cost a system call. So text waits
//! here until a piece is large enough. Numbers and rows are printed straight into the waiting text,
//! without an allocation for each.
ghost use Rattle.std.specs.Prelude.{◌≡◌, ◌++◌, ℕ, List, [], OnErr, OnOk};
ghost use Rattle.output.specs.Outs.{IsBeginning, Wrote, Broke};
ghost use Rattle.output.specs.Lines.{refused_text, read_text, count_text, update_text, element_text};
ghost use Rattle.update.specs.Text.{entry_text};

use crate::outputs::{Out, OutFault, put_all};
use lattice::Bitime;
use row::Row;
use std::alloc::{AllocError, Global};
use std::marker::Model;
use update::{Refusal, Update};

// The size, in bytes, from which a piece is written.
const PIECE: usize = 65_536;

/// Text that waits for an output. A contract sees its bytes.
#[derive(Drop)]
pub struct OutputBuffer {
    text: String,
}

impl Model for OutputBuffer {
    ghost use Rattle.std.specs.Prelude.{List, ℕ, string_bytes};

    ghost Value = { List ℕ };

    ghost view = { λ buffer. string_bytes buffer.text };
}

impl OutputBuffer {
    /// A buffer in which no text waits. Takes no memory.
    pub fn new(alloc: Global) -> OutputBuffer
        ensures { result ≡ [] }
    {
        OutputBuffer {
            text: String::new(alloc),
        }
    }

    /// Adds text behind the text that waits.
    ///
    /// Cost: linear in the text.
    pub fn push(&mut self, text: &str) -> Result<(), AllocError>
        ensures { OnOk result (self.new ≡ self.old ++ text.now) }
    {
        self.text.push_str(text)
    }

    /// Writes all waiting text.
    pub fn flush<W: Out>(&mut self, out: &mut W) -> Result<(), OutFault>
        ensures all { OnOk result (W.took out.old self.old 0 out.new) }
        ensures empty { OnOk result (self.new ≡ []) }
        ensures beginning { OnErr result ((part : List ℕ) × IsBeginning part self.old
            × W.took out.old part 1 out.new) }
    {
        put_all(out, self.text.as_bytes())?;
        self.text.clear();
        Ok(())
    }

    /// Writes the waiting text if it is large enough to be worth a call.
    pub fn pass_on<W: Out>(&mut self, out: &mut W) -> Result<(), OutFault>
        ensures wrote { OnOk result (Wrote W.took out.old self.old [] out.new self.new) }
        ensures broke { OnErr result (Broke W.took out.old self.old [] 1 out.new) }
    {
        if self.text.len() < PIECE {
            return Ok(());
        }
        self.flush(out)
    }

    /// `refused LINE CODE`: the command of the line was refused.
    pub fn print_refused(&mut self, line: u64, refusal: Refusal) -> Result<(), AllocError>
        ensures { OnOk result (self.new ≡ self.old ++ refused_text line refusal) }
    {
        let code = refusal.code();
        writeln!(self.text, "refused {line} {code}")
    }

    /// `read VIEW VALID SYSTEM ROWS`: the header of a read's rows.
    pub fn print_read(&mut self, view: &str, time: Bitime, rows: usize) -> Result<(), AllocError>
        ensures { OnOk result (self.new ≡ self.old ++ read_text view.now time rows) }
    {
        let valid = time.first;
        let system = time.second;
        writeln!(self.text, "read {view} {valid} {system} {rows}")
    }

    /// `WORD VIEW LINES`: the header of a view's changes or of its frontier.
    pub fn print_count(&mut self, word: &str, view: &str, lines: usize) -> Result<(), AllocError>
        ensures { OnOk result (self.new ≡ self.old ++ count_text word.now view.now lines) }
    {
        writeln!(self.text, "{word} {view} {lines}")
    }

    /// `VALID SYSTEM DIFF ROW`: one change of a view.
    pub fn print_update(&mut self, update: &Update<Bitime>) -> Result<(), AllocError>
        ensures { OnOk result (self.new ≡ self.old ++ update_text update.now) }
    {
        let valid = update.time.first;
        let system = update.time.second;
        let diff = update.diff;
        let row = &update.row;
        writeln!(self.text, "{valid} {system} {diff} {row}")
    }

    /// `VALID SYSTEM`: one element of a frontier.
    pub fn print_element(&mut self, time: Bitime) -> Result<(), AllocError>
        ensures { OnOk result (self.new ≡ self.old ++ element_text time) }
    {
        let valid = time.first;
        let system = time.second;
        writeln!(self.text, "{valid} {system}")
    }

    /// `COUNT ROW`: one row of a read.
    pub fn print_row(&mut self, count: i64, row: &Row) -> Result<(), AllocError>
        ensures { OnOk result
            (self.new ≡ self.old ++ entry_text (record { row = row.now; count = count })) }
    {
        writeln!(self.text, "{count} {row}")
    }
}
