//! Tests of what changed between two bags: the printed text on worked examples, an output that
//! fails at each byte, and refused memory. They call only public functions.
#![tactic(auto)]

#[cfg(test)]
mod memory_tests;
#[cfg(test)]
mod narrow;
#[cfg(test)]
mod text_tests;
