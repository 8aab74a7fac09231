//! The visplanes of a view: areas of floor and ceiling, each a run of rows in some columns.
//!
//! Rules: `picture_rules/plane`, Planes, Spans and Floors. Proved: each call is its definition, and
//! `PlanesFull` comes exactly where a new plane is wanted and there is no room for one; a canvas is
//! given exactly a plane's pixels, each by the fractions of its span's first column. How a plane
//! keeps its runs (`specs/Columns`), that the two planes found last are looked at first, and that
//! spans are opened and closed from column to column are the code's own ways. Tested only: that
//! memory is found. The original: r_plane.c.
#![tactic(auto)]

mod columns;
mod draw;
mod floor;
mod keys;
mod planes;
mod row_runs;
mod rows;

pub use draw::draw_plane;
pub use picture_rules::{Flat4, PlaneKey};
pub use planes::{PlaneNo, Planes, PlanesFull};
pub use row_runs::RowRuns;
