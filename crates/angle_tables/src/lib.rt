//! The tables of angles, read from their file, and the tables that a view of a size derives from
//! them: each filled once and read in constant time.
//!
//! Rules: `view_rules`, Angles, Refusals, Shape and Tables. Proved: each accessor is its definition,
//! and a file is refused exactly where `tables_refusal` has a refusal, by that one. Tested only:
//! that memory is found. The original: tables.c, r_main.c (`R_InitTextureMapping`,
//! `R_InitLightTables`).
#![tactic(auto)]

mod columns;
mod lights;
mod lists;
mod refusals;
mod shapes;
mod tables;

pub use columns::projection;
pub use refusals::TablesFault;
pub use tables::Tables;
pub use view_rules::{TablesRefusal, ViewShape};
