//! How the bytes of the eight map lumps give a level, and what is refused of them.
//!
//! The layout of the records, the numbers that have to be in range, the order in which the first
//! refusal is found, and the tree of the nodes. Rules only. A leaf is the
//! field's subsector. The original: p_setup.c, doomdata.h.
pub mod layout;
mod lumps;
mod records;
mod refusal;

pub use lumps::{LEAF_BIT, MAX_RECORDS, MapLump, NO_SIDE};
pub use records::{MapLeaf, MapLine, MapSeg, MapVertex};
pub use refusal::MapRefusal;
