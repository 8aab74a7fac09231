//! The lumps of WAD files: their names, the directory that lists them, and how they are found.
//!
//! Rules: Names (a name), Wads (what the bytes of files list, or their first refusal), Lookups (the
//! last lump of a name, flats, sprite lumps, the label of a map), Contents (the bytes of a lump).
//! Records and constants alone, but for the calls of `Name8`, which are proved. The original:
//! w_wad.c, p_setup.c.
#![tactic(auto)]

mod name;
mod names;
mod wad;

pub use name::{NAME_SIZE, Name8};
pub use names::{
    BEHAVIOR, BEHAVIOR_AFTER, F_END, F_START, FF_END, FF_START, Group, IWAD, LETTER_COUNT,
    MAP_LUMP_COUNT, MAP_LUMPS, PWAD, S_END, S_START, SS_END, SS_START,
};
pub use wad::{
    COUNT_AT, DirRefusal, ENTRY_SIZE, HEADER_SIZE, Header, Lump, LumpNo, MAX_LUMPS, NAME_AT,
    PLACE_AT, SIZE_AT,
};
