//! What is said of one who is given items in order, one call each, and may stop at any of them: a
//! visitor of a walk is given its events, a brush the strips that a view shows.
//!
//! Rules: `specs/Receivers`; laws in `proofs/`. There is no code. This project's own.
#![tactic(auto)]
