//! The audit of a level: a scene that every drawing layer may rely on, or the first thing that is
//! wrong with the lumps; and in the folder `scene_load` the scene of a job over its files, in a zone.
//!
//! Rules: `scene_rules`, Scenes (`scene_in`, the order of all checks); what a sound scene is and
//! lends is in `sound_scene`, which lumps an audit reads in `specs/Reads`, weapons in
//! `specs/Weapons`. Proved: what an audit answers over any shelf, that a sound scene has what drawing
//! asks of it, what an audit keeps and leaves of the cache, and how small a zone was that had no
//! room. Tested only: that memory is found. The original: `P_SetupLevel`, p_setup.c, `R_InitData`
//! and `R_PrecacheLevel`, r_data.c, `R_InitSprites`, r_things.c, which end the program at what is
//! refused here.
#![tactic(auto)]

mod art;
mod audit_steps;
mod base;
mod checks;
mod colours;
mod fault;
mod middles;
mod names;
mod scene;
pub mod scene_load;
mod weapons;

pub use audit_steps::audit;
pub use fault::AuditFault;
pub use scene_load::{LoadedScene, load_scene};
pub use scene_rules::{ArtRefusal, AuditRefusal, SceneRefusal, WeaponRefusal};
pub use sound_scene::{SoundScene, ZoneSizes};
pub use weapons::audit_weapons;
