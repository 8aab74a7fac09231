//! The planes of a view drawn: floors and ceilings by their flats, and the sky.
//!
//! Rules: `picture_rules/plane`, Floors and Skies; `picture_rules`, Planes; `specs/Strips` has the
//! strips of planes. Proved: a brush is asked for exactly these, in order; a canvas is given exactly
//! the pixels of the planes in order of making, what a call keeps of the cache, and when the zone is
//! full. No call takes memory. The original: `R_DrawPlanes`, r_plane.c.
#![tactic(auto)]

mod draw;
mod planes;
mod scene;
mod sky;

pub use draw::draw_planes;
pub use planes::paint_planes;
pub use scene::{PlaneScene, ViewPlanes};
