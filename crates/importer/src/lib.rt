//! A table of an owner, from a CSV file to a command file.
//!
//! A [`Schema`] says which columns of the CSV file are times, columns of rows and amounts, and
//! which lines frame the changes ([`read_schema`]). [`import`] goes through the records in file
//! order and writes one `change` line for each, or several if its amount is too large for one. It
//! returns the [`dictionary::Dictionary`] that says what the numbers stand for.
//!
//! A record's text comes from the kit's reader of CSV, whose contract says how a field is cut out
//! of the bytes. What is stated here is what the importer adds to it: the line of one change is
//! defined in `specs/Changes`, and a fault's line lies within the file. That the whole command file
//! follows from the whole CSV file is tested, not stated.
#![tactic(auto)]

mod ask;
mod change_writer;
mod excerpt;
mod fault;
mod layout;
mod records;
mod schema;
mod schema_fault;
mod schema_lines;
mod text;
mod whole;
mod words;

pub use excerpt::Excerpt;
pub use fault::{FieldProblem, ImportFault};
pub use schema::{Role, Schema, SchemaColumn};
pub use schema_fault::{SchemaFault, SchemaProblem};
pub use schema_lines::read_schema;
pub use whole::{Imported, import};
