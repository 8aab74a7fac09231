//! A level, read through the cache lump by lump, and the parts of a scene that a level, the lists of
//! textures, the thing table and the directory give without a lump being read: the textures of sides,
//! the flats of sectors, and where things stand.
//!
//! Rules: `level_rules/maps`, Levels; `scene_rules`, Scenes (`level_in`), Skies, Sides, SectorFlats and
//! Places; which lumps are asked for is in `specs/Asked`, what a builder has after some of them in
//! `specs/Lumps`. Proved: what `read_level` answers over any shelf and what it keeps of the cache;
//! that after Ok, from a cache at rest whose live lumps have the directory's sizes, the zone has room
//! for each of the eight beside the colormap; and that each other call is its definition, with its
//! first refusal. Tested only: that memory is found, but for `number_sides`. The original:
//! `P_SetupLevel`, p_setup.c, p_mobj.c.
#![tactic(auto)]

mod fault;
mod flats;
mod level;
mod lumps;
mod places;
mod sides;

pub use fault::{LevelFault, SceneFault};
pub use flats::{find_flats, make_surfaces};
pub use level::read_level;
pub use map_lumps::{Level, MapRefusal};
pub use places::{PlacedThings, place_things, sector_at};
pub use sides::{find_sky, number_sides, sky_name, wanted_textures};
