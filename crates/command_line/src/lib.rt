//! The command line of the program: its grammar, its help, and the request that arguments make.
//!
//! [`words`] is the door. Whatever it answers can be carried out: a number of workers that is not
//! supported never gets past it (`specs/Requests`). The rest is the library `clap`, which knows the
//! grammar (`usage`) and forms help and errors. No file is touched here.
#![tactic(auto)]

mod arguments;
mod request;
mod usage;

pub use arguments::words;
pub use request::{Action, Comparison, Request};
