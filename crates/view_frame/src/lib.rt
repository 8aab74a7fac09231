//! What one viewpoint sees: angles, distances, scales, column ranges, the sides of lines, light.
//!
//! Rules: `view_rules`, Bearings, Ranges, Sides and Lights. Proved: each call is its definition;
//! the columns of a range are in order and within the view. No call takes memory, searches or
//! copies a table. The original: r_main.c, r_bsp.c.
#![tactic(auto)]

mod bearings;
mod ranges;
mod sides;
mod view;

pub use angle_tables::{Tables, projection};
pub use fx_words::{
    abs_word, div, fine_angle, fixed, greater_word, inverse_word, lesser_word, minus, mul,
    neg_word, plus, same_word, shl_word, shr_word, signed_of, times, turn, turn_back,
};
pub use sides::side_of;
pub use view::View;
pub use view_rules::{ColumnRange, Eye, Partition, Spans, ViewShape};
