//! Text on its way out of the program: outputs, the text that waits for them, and the lines of a
//! run.
//!
//! An [`Out`] is a place to write bytes to. Its contract says which bytes it took, and nothing of
//! where they go, so that what is written can be stated in full, for any output. Printed text is
//! collected in an [`OutputBuffer`] and goes to the output in large pieces (`specs/Outs`). The
//! lines that a run of a command file prints are defined in `specs/Lines`.
//!
//! This crate knows rows, times and updates, and no engine, so a crate that prints needs no other.
#![tactic(auto)]

mod fault;
mod memory;
mod output_buffer;
mod outputs;

pub use fault::PrintFault;
pub use memory::MemoryOut;
pub use output_buffer::OutputBuffer;
pub use outputs::{Out, OutFault, put_all};
