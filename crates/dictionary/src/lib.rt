//! What the numbers of a run stand for: kinds of columns, names, and the text of each value.
//!
//! The engine knows 64-bit numbers alone. A table of an owner has dates, amounts with two decimal
//! places, and names. This crate says which number stands for which text. A [`Kind`] reads a text
//! as a number and writes the number as a text again ([`read_number`], [`write_value`]). [`Names`]
//! gives each name the next number at its first use. [`split`] cuts an amount that is too large for
//! one change. A [`Dictionary`] has the kinds and names of a whole import; [`dictionary_text`]
//! writes it as CSV and [`read_dictionary`] reads it back.
//!
//! `specs/` defines each form over lists of bytes: `Digits` (whole numbers), `Decimals` (amounts),
//! `Naming` (names) and `Values` (numbers of each kind). Of days, and of the CSV form of a
//! dictionary, nothing is defined there: that a day is written as it was read, and a dictionary
//! too, is only tested.
#![tactic(auto)]

mod column;
mod date;
mod decimal;
mod digits;
mod entries;
mod fault;
mod kind;
mod lines;
mod names;
mod pieces;
mod places;
mod reader;
mod value;
mod writer;

pub use column::{Column, View};
pub use date::{day_number, write_day};
pub use decimal::{amount, write_amount};
pub use digits::whole;
pub use entries::{Dictionary, add_column};
pub use fault::{DictionaryFault, Problem};
pub use kind::{Kind, kind_of};
pub use lines::{line_at, line_of, without_mark};
pub use names::Names;
pub use pieces::{Pieces, split};
pub use places::Places;
pub use reader::read_dictionary;
pub use value::{read_number, read_time, write_value};
pub use writer::dictionary_text;
