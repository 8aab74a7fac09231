//! The scene of a job over a level, in a zone: all that such a job needs before it draws or tells
//! anything.
//!
//! Rules: specs, Loads (what files and lumps give, or the first step that stops, be it a file that
//! is not held), Fulls (when the zone is full) and Orders (what the zone is asked for). Proved: what
//! `load_scene` answers over any shelf, how many bytes of the files are read at most, how small a
//! zone was that had no room, and that with a roomy zone no more bytes are read than each file and
//! each needed lump has once. Tested only: that memory is found. The original: `D_DoomMain`,
//! d_main.c, with `R_Init`, r_main.c, and `P_SetupLevel`, p_setup.c.
mod fault;
mod load;

pub use load::{LoadedScene, load_scene};
