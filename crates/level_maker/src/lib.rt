//! The made files: tables, a thing table, paths and WAD files, each told from a number alone.
//!
//! Rules: `made_rules`. Proved: the bytes of each call are those of the rule. Tested only: that
//! memory is found. This project's own: the original has no such files.
#![tactic(auto)]

mod bytes;
mod cells;
mod map;
mod nodes;
mod patches;
mod path;
mod pictures;
mod sectors;
mod tables;
mod textures;
mod things;
mod wad;

pub use path::make_path;
pub use tables::make_tables;
pub use things::make_things;
pub use wad::make_wad;

/// Memory ran out.
pub use std::alloc::AllocError as OutOfMemory;
