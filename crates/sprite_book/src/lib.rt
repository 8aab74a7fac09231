//! The pictures of sprites: which lumps show the frames that things need, from each of eight
//! rotations.
//!
//! Rules: `art_rules`, Frames (what the names of sprite lumps mention), Patches and Books (a book,
//! or why it is refused), and `specs/Calls`, which tells of a call over the cache as `lump_cache`
//! does, with the patches that were read so far. Proved: what `load` answers over any shelf and
//! what it keeps of a cache, and that `pick` gives the definition's shape. Tested only: that memory
//! suffices. By neither: that a lump is fetched at most once, as the code does. A shape is the
//! field's spriteframe with its picture's width and offsets. The original: `R_InitSprites`,
//! r_things.c.
#![tactic(auto)]

mod book;
mod fault;
mod list;
mod mentions;
mod needs;
mod pictures;
mod read;

pub use art_rules::{Frame, Need, Shape, SpriteRefusal};
pub use book::SpriteBook;
pub use fault::SpriteFault;
