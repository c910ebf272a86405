//! Tests of imports and of shown answers, by public calls alone. Each expected text is worked out
//! by hand from `docs/IMPORT.md`.
#![tactic(auto)]

#[cfg(test)]
mod calls;
#[cfg(test)]
mod fault_tests;
#[cfg(test)]
mod import_tests;
#[cfg(test)]
mod memory_tests;
#[cfg(test)]
mod schema_tests;
#[cfg(test)]
mod show_tests;
#[cfg(test)]
mod value_tests;
