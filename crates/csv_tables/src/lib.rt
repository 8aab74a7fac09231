//! The tables of rows that a user writes as text: things, the views of a path, weapon layers.
//!
//! Rules: `specs/`, over `csv`'s own words for the records of a text. Proved: each read gives the
//! rows of the file, or the first refusal in the stated order. Tested only: that memory is found.
//! The original has these in its program: `mobjinfo` and `states`, info.c.
#![tactic(auto)]

mod columns;
mod fault;
mod number;
mod path;
mod records;
mod things;
mod weapons;

pub use crate::fault::{CsvFault, CsvRefusal};
pub use crate::path::PathTable;
pub use crate::records::MAX_TABLE_BYTES;
pub use crate::things::ThingTable;
pub use crate::weapons::{WeaponRow, WeaponTable};
pub use level_rules::{ThingLine, ThingRow};
pub use view_rules::Eye as PathRow;
