//! The directory of WAD files: which lumps they have, and how a lump is found by name.
//!
//! Rules: `lump_rules`, Wads and Lookups. Proved: what `load` answers over any shelf, and that each
//! look-up gives the lump of its definition. Tested only: that memory is found. The original:
//! w_wad.c, and `P_SetupLevel` of p_setup.c for the lumps of a map.
#![tactic(auto)]

mod directory;
mod fault;
mod index;
mod load;
mod map;

pub use directory::Directory;
pub use fault::DirFault;
pub use lump_rules::{DirRefusal, LumpNo, Name8};
