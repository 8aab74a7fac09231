//! The lists of textures, read through the cache.
//!
//! Rules: `art_rules`, Textures; what holds of any call over a cache stands in `lump_cache`, which
//! lumps may be asked for in `specs/Asked`. Proved: what `load` answers over any shelf, and what it
//! keeps of the cache; the number of a texture's name, and the height, the width, the mask and the
//! patches of a texture, with their names. Tested only: that memory suffices. The original:
//! `R_InitTextures`, r_data.c.
#![tactic(auto)]

mod fault;
mod index;
mod listed;
mod lists;
mod load;
mod names;
mod number;
mod records;

pub use art_rules::TexRefusal;
pub use fault::TexFault;
pub use listed::ListedTextures;
pub use number::TexNo;
