//! The textures of walls: prepared column by column, composed in the zone, lent as texels, and
//! painted in strips.
//!
//! Rules: `art_rules`, Textures, Columns, Lookups and Wanted. `specs/Views` has what a contract
//! sees, `specs/Parts` how the patches of a texture come, `specs/Sources` what a column is read
//! from, `specs/Asked` what a call may ask of the zone, `specs/Composites` which composites a cache
//! has, `specs/Builds` how one is built, `specs/Ready` what it means that a column is made live,
//! `specs/Paints` what a call that paints with them leaves, `specs/Strips` the dots of a strip.
//! Proved: each call. Tested only: that memory suffices. The original: r_data.c.
#![tactic(auto)]

mod build;
mod column;
mod hands;
mod lumps;
mod place;
mod prepare;
mod prepared;
mod prepared_list;
mod ready;
mod source;
mod strip;
mod textures;

pub use art_rules::{ColumnLookup, TexRefusal};
pub use column::Column;
pub use hands::Hands;
pub use lump_cache::{
    CacheFault, Directory, LumpCache, LumpNo, Name8, Tag, ZoneMake, fetch_live, live_lump,
};
pub use source::ColumnSource;
pub use strip::{TextureArt, TextureStrip, paint_texture};
pub use texture_lists::{ListedTextures, TexFault, TexNo};
pub use textures::Textures;
