//! Tests of explanations: the text for each code, each hint and each warning, worked out by hand
//! from the language of command files.
#![tactic(auto)]

#[cfg(test)]
mod code_tests;
#[cfg(test)]
mod expectations;
#[cfg(test)]
mod hint_tests;
#[cfg(test)]
mod outcome_tests;
#[cfg(test)]
mod warning_tests;
