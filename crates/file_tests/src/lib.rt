//! Tests of the crates that read files and keep a zone of their art. It has no code of its own.
//!
//! Those of crate X are in `tests/X_tests`; of `level_scene` in `level_tests` and
//! `placed_things_tests`, of `map_lumps` in `level_tests`. Proved: nothing but that the tests are
//! safe. Tested only: what the tests compare, with values from outside the definitions.
#![tactic(auto)]

#[cfg(test)]
mod tests;
