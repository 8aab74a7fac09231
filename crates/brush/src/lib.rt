//! What paints a view: all that a painter of walls, planes, sprites and layers is lent of cache,
//! directory, shelf, textures and canvas.
//!
//! A brush is asked for one strip after the other, each by its description, and for nothing else.
//! Rules: `receiver_rules`; `specs/Strips` has the strips and the dots of each. Proved: what a list
//! of strips does to cache, zone, shelf and canvas (`specs/Works`, the one place that says it). No
//! call takes memory. The original: `R_GetColumn` of r_data.c with `colfunc`, `W_CacheLumpNum` with
//! `R_MakeSpans`, one after the other where r_segs.c and r_plane.c call them.
#![tactic(auto)]

mod brush;
mod dry;
mod floors;
mod layers;
mod live;
mod middles;
mod pictures;
mod posts;

pub use brush::{Brush, FloorStrip, MiddleStrip, PictureStrip};
pub use dry::DryBrush;
pub use layers::paint_picture;
pub use live::LiveBrush;
pub use middles::paint_middle;
pub use pictures::column_of;
pub use texture_build::TextureStrip;
