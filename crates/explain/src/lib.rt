//! What is wrong with a command file, in words.
//!
//! A program needs the first fault of a file, and [`grammar::parse`] finds it. The person who wrote
//! the file wants more: every faulty line at once, the word at fault, and what to write in its
//! place. [`explain`] writes that. A file without a fault may still say what its author did not
//! mean, as a change that each run refuses. Then the explanation warns of it.
//!
//! The first fault that is told is the one that `parse` finds, and the text begins with it. That is
//! proved, with one simple means: `parse` decides it before a line is told, and the lines are then
//! gone over by a [`grammar::Reader`], which goes on past faults. What a later line is told is not
//! stated by a clause, but tested.
//!
//! `explainer` decides whether faults or warnings are told, and `teller` writes what is told line
//! by line. `faults` and `warnings` say what that is. `places` knows what is due at each word of a
//! line, and `marks` which word is at fault; `excerpt` shows the line with a mark below. Hints come
//! from the modules `hints`, `forms`, `name_hints`, `number_hints` and `plan_hints`.
#![tactic(auto)]

mod case;
mod dates;
mod excerpt;
mod explainer;
mod faults;
mod forms;
mod found;
mod hints;
mod marks;
mod meanings;
mod name_hints;
mod number_hints;
mod places;
mod plan_hints;
mod sorts;
mod teller;
mod uses;
mod warnings;

pub use explainer::explain;
pub use found::Found;
