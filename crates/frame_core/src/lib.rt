//! One view of a scene: its walls, planes and masked pass on a canvas, what it counts, and the list
//! of what it is made of.
//!
//! Rules: `picture_rules`; what of a scene a picture is made from in this crate's Scenes. Proved:
//! the frame is the picture of the view, byte for byte; a count that passes its limit ends the
//! view, and only that one; what a call keeps of the cache, and when the zone is full: never where
//! it is enough for the scene. Only `Workshop::new` and `ViewList::new` take memory. The original:
//! R_RenderPlayerView, r_main.c.
#![tactic(auto)]

mod bench;
mod entered;
mod facts;
mod fault;
mod floors;
mod keys;
mod list;
mod lister;
mod masks;
mod painter;
mod parts;
mod shown;
mod things;
mod tools;
mod view;
mod walk_list;
mod walked;
mod workshop;

pub use fault::ViewFault;
pub use list::{ViewList, list_view};
pub use picture_rules::{Counts, LimitKind, Limits, OverLimit};
pub use view::{count_view, draw_view, draw_view_on};
pub use workshop::Workshop;
