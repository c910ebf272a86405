//! Tests of sessions and their clients, by public calls alone. No caller but them knows what stands
//! here.
#![tactic(auto)]

#[cfg(test)]
mod caller;
#[cfg(test)]
mod client_tests;
#[cfg(test)]
mod memory_tests;
#[cfg(test)]
mod session_tests;
