//! On which line of a file a record of CSV begins.
//!
//! The reader of the kit counts lines as it meets them: after a carriage return it is one line
//! late, and empty lines before a record are not its own. So the line is counted here, from the
//! byte at which the reader began to look for the record.
ghost use Rattle.std.specs.Prelude.{◌≤◌, ◌+◌, length};

use csv::ByteRecord;

/// The bytes without a byte order mark at their beginning. Takes no memory.
pub fn without_mark(bytes: &[u8]) -> &[u8] {
    match bytes {
        [0xef, 0xbb, 0xbf, rest @ ..] => rest,
        _ => bytes,
    }
}

// The index of the first byte that does not end a line, from this one on; that of the end if there
// is none.
fn first_of_record(bytes: &[u8], from: usize) -> usize
    requires { from ≤ length bytes.now }
    ensures { result ≤ length bytes.now }
{
    let rest = bytes.split_at(from).1;
    match rest
        .iter()
        .position(|byte| *byte != b'\r' && *byte != b'\n')
    {
        Some(more) => from + more,
        None => bytes.len(),
    }
}

// How many newlines there are.
fn newlines(bytes: &[u8]) -> usize
    ensures { result ≤ length bytes.now }
{
    bytes.iter().filter(|byte| **byte == b'\n').count()
}

/// The line, from 1, on which a record begins that was looked for from this byte on. Empty lines
/// before it are passed over. A byte beyond the end stands for the end. Takes no memory.
///
/// Cost: linear in the bytes.
pub fn line_at(bytes: &[u8], from: u64) -> u64
    ensures first { 1 ≤ result }
    ensures last { result ≤ length bytes.now + 1 }
{
    let from = if from < bytes.len() as u64 {
        from as usize
    } else {
        bytes.len()
    };
    let start = first_of_record(bytes, from);
    newlines(bytes.split_at(start).0) as u64 + 1
}

/// The line, from 1, on which the record begins that a reader of these bytes gave. Takes no memory.
///
/// Cost: linear in the bytes.
pub fn line_of(bytes: &[u8], record: &ByteRecord) -> u64
    ensures first { 1 ≤ result }
    ensures last { result ≤ length bytes.now + 1 }
{
    match record.position() {
        Some(position) => line_at(bytes, position.byte()),
        None => 1,
    }
}
