//! The vissprites of a view: things projected, and kept in the order in which they are drawn.
//!
//! Rules: `picture_rules/sprite`, Projection, Entries and Order. Proved: each call is its definition; past
//! the most entries of a view `add` changes nothing; drawing order is sorted by scale, and entries
//! of one scale keep their order. A contract sees `Sprites` as its entries (vissprites) in order of
//! making; that they lie in drawing order is the code's own way (`specs/Kept`). Tested only: that
//! memory is found. The original: r_things.c.
#![tactic(auto)]

mod entries;
mod seen;
mod sorted;
mod sprites;

pub use entries::{edge_column, entry_for, misses_view};
pub use picture_rules::{MAX_VISSPRITES, Placed, Seen, Shape5, SpriteEntry};
pub use seen::{ROTATIONS, project};
pub use sorted::SortedSprites;
pub use sprites::Sprites;
