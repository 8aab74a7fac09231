//! The masked pass: sprites and masked mid textures, the farthest first.
//!
//! Rules: `picture_rules/sprite`, Drawsegs, Clips, Sprites and Middles; how a note is a drawn fragment in
//! this crate's Lists; `specs/Strips` has the strips of the pass. Proved: a brush is asked for exactly
//! these, each sprite after the masked columns behind it and at last those that are left, and a canvas
//! is given exactly their pixels. No call takes memory.
//! The original: r_things.c, and R_RenderMaskedSegRange of r_segs.c.
#![tactic(auto)]

mod clips;
mod middles;
mod pass;
mod scene;
mod sprites;
mod tools;

pub use pass::{draw_masked, paint_masked};
pub use picture_rules::{Clip, FragmentNote};
pub use scene::MaskScene;
pub use tools::MaskedTools;
