//! Strips of pixels on a canvas: columns of walls and posts, spans of planes.
//!
//! Rules: `pixel_rules`, Dots and Strips. Proved: each pixel of a strip has the closed form of its
//! row or column, no other cell changes, and the painter and the place of the view stay. That the
//! fractions are stepped is the code's own way. Tested only: that memory is found for a frame. The
//! original: r_draw.c.
#![tactic(auto)]

mod canvas;
mod column;
mod frame;
mod places;
mod span;
mod texels;

pub use canvas::{Canvas, CutColumn, CutSpan};
pub use column::{ColumnStrip, paint_column, paint_post, row_fraction};
pub use frame::Frame;
pub use pixel_rules::Painter;
pub use span::{SpanStrip, paint_span, paint_span_as};
pub use texels::FLAT_BYTES;
