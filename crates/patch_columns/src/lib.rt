//! The bytes of art lumps: patches and their posts, flats, colormaps and palettes; the columns of a
//! texture, what each is read from, and the composite of those in which several patches stand.
//!
//! Rules: `art_rules`, Patches, Flats, Columns and Lookups, `shade` of `pixel_rules`, and
//! `specs/Seen` and `specs/Composites`. Proved: each call is its definition. Where numbers are
//! places in bytes, they are below 2^63. No call takes memory. A patch is the field's picture lump.
//! The original: `R_GenerateLookup`, `R_GenerateComposite`, `R_DrawColumnInCache`, r_data.c;
//! r_draw.c, r_defs.h.
#![tactic(auto)]

mod colours;
mod compose;
mod lookups;
mod posts;

pub use art_rules::{Patch, Post, byte_at};
pub use colours::{flat_byte, palette_colour, shade};
pub use compose::put_patch;
pub use lookups::{add_patch, place_columns};
pub use posts::{column_place, next_place, post_at};
