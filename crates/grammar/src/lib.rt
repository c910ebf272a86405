//! Command files: from bytes to a plan and its commands, or to the first faulty line.
//!
//! A file is a list of lines, and a line is a list of words. The meaning of a line depends only on
//! the lines before it, so each file has one reading. [`parse`] returns its [`Script`] or its one
//! [`Fault`]: the first faulty line, and the first test that fails there. A [`Reader`] goes on
//! after a fault, to find the later ones. Names are resolved here
//! and never again. The plan of a script keeps all rules of plans, and every command names an input
//! of that plan, or a view if the command asks about one.
//!
//! `specs/` defines the grammar over lists of bytes, without positions; its only state is what the
//! lines so far have said. `Text` cuts bytes into lines and words. `Names`, `Numbers` and `Items`
//! define which words are names, numbers and items. `Declarations` and `Lines` have one definition
//! for each kind of line, and `Scripts` goes over all lines. The code follows these definitions one
//! by one.
#![tactic(auto)]

mod command;
mod declarations;
mod draft;
mod fault;
mod items;
mod keyword;
mod kind;
mod laws;
mod lines;
mod names;
mod nodes;
mod numbers;
mod parser;
mod reader;
mod requests;
mod script;
mod text;
mod words;

pub use command::{Command, CommandLine, InputCommand, ViewCommand};
pub use fault::Fault;
pub use laws::{
    first_faults_decide, joined_texts_are_cut_again, lines_are_spelled, numbers_have_one_form,
    scripts_are_spelled,
};
pub use names::is_name;
pub use numbers::{signed_number, whole_number};
pub use parser::parse;
pub use reader::Reader;
pub use script::Script;
pub use text::first_line;
