//! Records of CSV on their way to an output.
use dictionary::{Kind, Names, write_day, write_value};
use output::{Out, OutFault, OutputBuffer};
use std::alloc::{AllocError, Global};

// Whether the byte calls for quotes around its field.
fn is_special(byte: u8) -> bool {
    byte == b',' || byte == b'"' || byte == b'\r' || byte == b'\n'
}

// Adds the field's text: between quotes, and with each quote twice, if a byte calls for it.
fn push_field(text: &mut String, field: &str) -> Result<(), AllocError> {
    if !field.as_bytes().iter().any(|byte| is_special(*byte)) {
        return text.push_str(field);
    }
    text.push_str("\"")?;
    let mut first = true;
    for piece in field.split('"') {
        if !first {
            text.push_str("\"\"")?;
        }
        text.push_str(piece)?;
        first = false;
    }
    text.push_str("\"")
}

/// A table of CSV that is being written.
#[derive(Drop)]
pub(crate) struct Sheet {
    buffer: OutputBuffer,
    line: String,
    field: String,
}

impl Sheet {
    /// Nothing is written yet. Takes no memory.
    pub(crate) fn new(alloc: Global) -> Sheet {
        Sheet {
            buffer: OutputBuffer::new(alloc),
            line: String::new(alloc),
            field: String::new(alloc),
        }
    }

    /// Adds a field to the record.
    pub(crate) fn push(&mut self, field: &str) -> Result<(), AllocError> {
        if !self.line.is_empty() {
            self.line.push_str(",")?;
        }
        push_field(&mut self.line, field)
    }

    /// Adds the number's text in this kind as a field to the record.
    pub(crate) fn push_value(
        &mut self,
        kind: Kind,
        number: i64,
        names: &Names,
    ) -> Result<(), AllocError> {
        self.field.clear();
        write_value(&mut self.field, kind, number, names)?;
        if !self.line.is_empty() {
            self.line.push_str(",")?;
        }
        push_field(&mut self.line, self.field.as_str())
    }

    /// Adds the time's text in this kind as a field to the record. A time beyond the days is a
    /// number.
    pub(crate) fn push_time(&mut self, kind: Kind, time: u64) -> Result<(), AllocError> {
        if !self.line.is_empty() {
            self.line.push_str(",")?;
        }
        if kind == Kind::Date && time <= i64::MAX as u64 {
            return write_day(&mut self.line, time as i64);
        }
        write!(self.line, "{time}")
    }

    /// Adds a column's title, `c` and its number, as a field to the record.
    pub(crate) fn push_column(&mut self, number: usize) -> Result<(), AllocError> {
        self.line.push_str(",")?;
        write!(self.line, "c{number}")
    }

    /// Ends the record. Nothing of it is left.
    pub(crate) fn end<W: Out>(&mut self, out: &mut W) -> Result<(), output::PrintFault> {
        self.buffer.push(self.line.as_str())?;
        self.buffer.push("\n")?;
        self.line.clear();
        self.buffer.pass_on(out)?;
        Ok(())
    }

    /// Writes all that waits.
    pub(crate) fn flush<W: Out>(&mut self, out: &mut W) -> Result<(), OutFault> {
        self.buffer.flush(out)
    }
}
