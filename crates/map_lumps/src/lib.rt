//! The level of a map, from the bytes of its eight lumps.
//!
//! Rules: `level_rules/maps`. Proved: each refusal is the first in the stated order, and a level is
//! given exactly where nothing is refused; its lists are the definition's, each number in it
//! names an entry that is there, and its nodes are a tree at most `MAX_DEPTH` deep. Tested only:
//! that memory is found. A leaf is the field's subsector. The original: p_setup.c.
#![tactic(auto)]

mod builder;
mod entries;
mod fault;
mod fields;
mod join;
mod level;
mod lists;
mod ranges;
mod records;
mod sizes;
mod tree;

pub use builder::LevelBuilder;
pub use fault::MapFault;
pub use level::Level;
pub use level_rules::{
    Box4, Child, Leaf, MAX_DEPTH, MAX_RECORDS, MapLump, MapRefusal, Node, Partition4, SKY_FLAT,
    Sector, Seg, Side, Surface, Thing,
};
