// The shape of a view by its size: rule `shape_of_size`. The original: `R_ExecuteSetViewSize`,
// r_main.c, and `R_InitBuffer`, r_draw.c.

ghost use Rattle.std.specs.Prelude.{◌≡◌, ◌≤◌, ◌<◌};
ghost use Rattle.angle_tables.specs.Rules.{FRAME_HEIGHT, FRAME_WIDTH, MAX_SIZE, MIN_SIZE, ROWS_ABOVE_BAR, height_of_size, left_of_size, shape_of_size, top_of_size, width_of_size};

use view_rules::{
    COLUMNS_PER_SIZE, FRAME_HEIGHT, FRAME_WIDTH, MAX_SIZE, ROWS_ABOVE_BAR, ROWS_STEP, ViewShape,
    WIDEST_SIZE,
};
use word_rules::FRACTION_UNIT;

/// The shape of a view of `size`.
#[tactic(auto, unfolding(view_rules::specs::Shape::shape_of_size))]
pub(crate) fn shape_of_size(size: u8) -> ViewShape
    requires least { MIN_SIZE ≤ size }
    requires greatest { size ≤ MAX_SIZE }
    ensures { result ≡ shape_of_size size }
{
    let width = width_of_size(size);
    let height = height_of_size(size);
    ViewShape {
        width,
        height,
        left: left_of_size(size),
        top: top_of_size(size),
        centre_x: width / 2,
        centre_y: height / 2,
        sky_step: (FRACTION_UNIT as u32 * FRAME_WIDTH as u32 / width as u32) as i32,
    }
}

#[tactic(auto, unfolding(view_rules::specs::Shape::width_of_size))]
fn width_of_size(size: u8) -> u16
    requires { MIN_SIZE ≤ size }
    ensures value { result ≡ width_of_size size }
    ensures positive { 0 < result }
    ensures bound { result ≤ FRAME_WIDTH }
{
    COLUMNS_PER_SIZE * size.min(WIDEST_SIZE) as u16
}

#[tactic(auto, unfolding(view_rules::specs::Shape::height_of_size))]
fn height_of_size(size: u8) -> u16
    requires { size ≤ MAX_SIZE }
    ensures { result ≡ height_of_size size }
{
    if size == MAX_SIZE {
        return FRAME_HEIGHT;
    }
    size as u16 * ROWS_ABOVE_BAR / WIDEST_SIZE as u16 / ROWS_STEP * ROWS_STEP
}

#[tactic(auto, unfolding(view_rules::specs::Shape::left_of_size))]
fn left_of_size(size: u8) -> u16
    requires { MIN_SIZE ≤ size }
    ensures { result ≡ left_of_size size }
{
    (FRAME_WIDTH - width_of_size(size)) / 2
}

#[tactic(auto, unfolding(view_rules::specs::Shape::top_of_size))]
fn top_of_size(size: u8) -> u16
    requires { size ≤ MAX_SIZE }
    ensures { result ≡ top_of_size size }
{
    if size == MAX_SIZE {
        return 0;
    }
    ROWS_ABOVE_BAR.saturating_sub(height_of_size(size)) / 2
}
