//! A scene that passed its audit: what drawing borrows of it, the lumps that it needs, and how large a
//! zone has to be for them.
//!
//! Rules: `scene_rules`, Scenes and Sizes; what contracts see of a sound scene is in `specs/Sound`,
//! what drawing asks of it in `specs/Whole`, what a picture is made from in `specs/Pictures`. Proved:
//! what a sound scene lends, which lumps it needs, and the sizes of a zone for them. `level_audit`
//! makes one of a level's lumps. Tested only: that memory is found (by the tests of `level_audit`).
//! The original: the globals of p_setup.c, r_data.c and r_things.c.
#![tactic(auto)]

mod marks;
mod needed;
mod needs;
mod parts;
mod sizes;
mod sound;

pub use marks::Marks;
pub use needed::{mark_flats, mark_lumps};
pub use needs::{Needed, find_needed};
pub use parts::{ReadBase, ReadFaces, ReadScene};
pub use scene_rules::{Flat, PlacedThing, SectorFlats, SideTextures, Surface, ZoneSizes};
pub use sound::SoundScene;
