//! Tests of the drawing, and tests that cross crates. It has no code of its own.
//!
//! Those of crate X are in `tests/X_tests`; `tests/messages` has the sentences of faults of a view,
//! and `proofs` values to which definitions evaluate. Proved: these values, and that the tests are
//! safe. Tested only: what the tests compare, with values from outside the definitions.
#![tactic(auto)]

#[cfg(test)]
mod tests;
