//! Tests of whole runs of the program: words and files in memory, and what a run makes of them. It
//! has no code of its own.
//!
//! Proved: nothing but that the tests are safe. Tested only: what the tests compare, with values
//! from outside the definitions.
#![tactic(auto)]

#[cfg(test)]
mod tests;
