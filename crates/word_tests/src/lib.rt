//! Tests of the words of the command line, of the tables of rows, and of the codes and sentences of
//! refusals and faults. It has no code of its own.
//!
//! Those of crate X are in `tests/X_tests`; `tests/messages` has the sentences of faults, of whichever
//! crate; `proofs` has the codes of refusals and the ends of ranges, to which definitions evaluate.
//! Proved: these values, and that the tests are safe. Tested only: what the tests compare, with
//! values from outside the definitions.
#![tactic(auto)]

#[cfg(test)]
mod tests;
