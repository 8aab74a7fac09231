// The columns of fine angles and the angles of columns: rules `column_of_angle`, `angle_of_column`,
// `y_slope`, `dist_scale`. The original: `R_InitTextureMapping`, r_main.c.

ghost use Rattle.std.specs.Prelude.{◌≡◌, ℕ, ◌+◌, ◌-◌, ◌*◌, ◌^◌, ◌<◌, ◌≤◌, pos, false, length, slice_index, slice_index_or, IfOk};
ghost use Rattle.angle_tables.specs.Rules.{FINE_SHIFT, TANGENTS, ang90, angle_dist_scale, angle_of_column, column_of_angle, dist_scale, fine_of_column, first_seen_by, focal_length, is_seen_by, projection, raw_column, seen_column, turn_back, within_view, y_slope};

use crate::lists::AngleLists;
use fx_words::{
    abs_word, clamp_word, div, fine_angle, fixed, minus, mul, plus, shr_word, turn_back,
};
use std::alloc::{AllocError, Global};
use view_rules::{EDGE_TANGENT, HALF_UNIT, MAX_FRACTION, MAX_TANGENT, TANGENTS, ViewShape};
use word_rules::{ANG90, FINE_SHIFT, FRACTION_BITS, FRACTION_UNIT};

/// The centre column of a view, 16.16: what its scales and columns are projected by.
///
/// The original: `projection`, r_main.c.
#[tactic(auto, unfolding(view_rules::specs::Tables::projection))]
pub fn projection(shape: ViewShape) -> i32
    ensures { result ≡ projection shape }
{
    fixed(shape.centre_x as i32)
}

/// The distance at which the view's width is seen under a quarter turn.
#[tactic(auto, unfolding(view_rules::specs::Tables::focal_length))]
pub(crate) fn focal_length(t: &AngleLists, shape: ViewShape) -> i32
    ensures { result ≡ focal_length t.now shape }
{
    div(projection(shape), t.tangent(EDGE_TANGENT))
}

/// The column of a tangent within the view's reach.
#[tactic(auto, unfolding(view_rules::specs::Tables::seen_column))]
fn seen_column(shape: ViewShape, focal: i32, tangent: i32) -> i32
    ensures { result ≡ seen_column shape focal tangent }
{
    let place = minus(projection(shape), mul(tangent, focal));
    clamp_word(
        -1,
        shape.width as i32 + 1,
        shr_word(plus(place, MAX_FRACTION), FRACTION_BITS),
    )
}

/// The column of a tangent, -1 left of the view and one past the width right of it.
#[tactic(auto, unfolding(view_rules::specs::Tables::raw_column))]
fn raw_column(shape: ViewShape, focal: i32, tangent: i32) -> i32
    ensures { result ≡ raw_column shape focal tangent }
{
    if tangent > MAX_TANGENT {
        return -1;
    }
    if tangent < -MAX_TANGENT {
        return shape.width as i32 + 1;
    }
    seen_column(shape, focal, tangent)
}

/// A column, from 0 to the width.
#[tactic(auto, unfolding(view_rules::specs::Tables::within_view))]
fn within_view(shape: ViewShape, column: i32) -> u16
    ensures value { result ≡ within_view shape column }
{
    clamp_word(0, shape.width as i32, column) as u16
}

/// The column of fine angle `i`, with the focal length at hand.
#[tactic(auto, unfolding(view_rules::specs::Tables::column_of_angle))]
fn column_of_angle(t: &AngleLists, shape: ViewShape, focal: i32, i: usize) -> u16
    requires index { i < TANGENTS }
    requires focal { focal ≡ focal_length t.now shape }
    ensures { result ≡ column_of_angle t.now shape i }
{
    within_view(shape, raw_column(shape, focal, t.tangent(i)))
}

/// The column of each fine angle.
pub(crate) fn columns_of_angles(
    alloc: Global,
    t: &AngleLists,
    shape: ViewShape,
) -> Result<Vec<u16>, AllocError>
    ensures len { IfOk result (λ v. length v.items ≡ TANGENTS) }
    ensures items { IfOk result (λ v. (i : ℕ) → i < TANGENTS →
        slice_index v.items i ≡ column_of_angle t.now shape i) }
{
    let focal = focal_length(t, shape);
    let mut columns = Vec::with_capacity(alloc, TANGENTS)?;
    for i in 0..TANGENTS {
        columns.push(column_of_angle(t, shape, focal, i))?;
    }
    Ok(columns)
}

/// Whether fine angle `i` is seen at column `x` or left of it.
#[tactic(auto, unfolding(view_rules::specs::Tables::is_seen_by))]
fn is_seen_by(t: &AngleLists, shape: ViewShape, focal: i32, x: u16, i: usize) -> bool
    requires { i < TANGENTS }
    ensures { result ≡ is_seen_by t.now shape focal x i }
{
    raw_column(shape, focal, t.tangent(i)) <= x as i32
}

/// The least fine angle that is seen at column `x` or left of it, where none below `start` is.
pub(crate) fn first_seen_by(t: &AngleLists, shape: ViewShape, x: u16, start: usize) -> Option<usize>
    requires start { start ≤ TANGENTS }
    requires before { (k : ℕ) → k < start →
        is_seen_by t.now shape (focal_length t.now shape) x k ≡ false }
    ensures value { result ≡ first_seen_by t.now shape x }
    ensures bound { (i : ℕ) → result ≡ Some i → i < TANGENTS }
{
    let focal = focal_length(t, shape);
    for i in start..TANGENTS {
        if is_seen_by(t, shape, focal, x, i) {
            return Some(i);
        }
    }
    None
}

/// The angle of a fine angle that is counted from a quarter turn right of the view's own.
fn angle_of_fine(fine: usize) -> u32
    requires { fine < TANGENTS }
    ensures { result ≡ turn_back (fine * 2 ^ FINE_SHIFT) ang90 }
{
    turn_back((fine as u32) << FINE_SHIFT, ANG90)
}

/// The least fine angle that is seen at column `x` or left of it, where none below `start` is.
#[tactic(auto, unfolding(view_rules::specs::Tables::fine_of_column))]
fn fine_of_column(t: &AngleLists, shape: ViewShape, x: u16, start: usize) -> usize
    requires start { start ≤ TANGENTS }
    requires before { (k : ℕ) → k < start →
        is_seen_by t.now shape (focal_length t.now shape) x k ≡ false }
    ensures value { result ≡ fine_of_column t.now shape x }
    ensures bound { result < TANGENTS }
    ensures before { (k left : ℕ) → k < result → left ≤ x →
        is_seen_by t.now shape (focal_length t.now shape) left k ≡ false }
{
    first_seen_by(t, shape, x, start).unwrap_or(0)
}

/// The angle at which each column looks, from the right edge to the left. One sweep finds them
/// all: the least fine angle of a column is not below that of the column right of it.
#[tactic(auto, unfolding(view_rules::specs::Tables::angle_of_column))]
pub(crate) fn angles_of_columns(
    alloc: Global,
    t: &AngleLists,
    shape: ViewShape,
) -> Result<Vec<u32>, AllocError>
    ensures len { IfOk result (λ v. length v.items ≡ shape.width + 1) }
    ensures items { IfOk result (λ v. (k : ℕ) → k ≤ shape.width →
        slice_index v.items k ≡ angle_of_column t.now shape (shape.width - k)) }
{
    let count = shape.width as usize + 1;
    let mut angles = Vec::with_capacity(alloc, count)?;
    let mut fine = 0;
    for k in 0..count {
        fine = fine_of_column(t, shape, shape.width - k as u16, fine);
        angles.push(angle_of_fine(fine))?;
    }
    Ok(angles)
}

/// The distance factor of row `y`.
#[tactic(auto, unfolding(view_rules::specs::Tables::y_slope))]
fn y_slope(shape: ViewShape, y: u16) -> i32
    ensures { result ≡ y_slope shape y }
{
    let below = fixed(minus(y as i32, shape.centre_y as i32));
    div(projection(shape), abs_word(plus(below, HALF_UNIT)))
}

/// The distance factor of each row.
pub(crate) fn slopes_of_rows(alloc: Global, shape: ViewShape) -> Result<Vec<i32>, AllocError>
    ensures len { IfOk result (λ v. length v.items ≡ shape.height) }
    ensures items { IfOk result (λ v. (y : ℕ) → y < shape.height →
        slice_index_or v.items y (pos 0) ≡ y_slope shape y) }
{
    let mut rows = Vec::with_capacity(alloc, shape.height as usize)?;
    for y in 0..shape.height {
        rows.push(y_slope(shape, y))?;
    }
    Ok(rows)
}

/// How much further what is seen at `angle` lies than straight ahead.
#[tactic(auto, unfolding(view_rules::specs::Tables::angle_dist_scale))]
fn angle_dist_scale(t: &AngleLists, angle: u32) -> i32
    ensures { result ≡ angle_dist_scale t.now angle }
{
    div(FRACTION_UNIT, abs_word(t.cosine(fine_angle(angle))))
}

/// The distance factor of each column, by the angles of the columns from the right.
#[tactic(auto, unfolding(view_rules::specs::Tables::dist_scale))]
pub(crate) fn scales_of_columns(
    alloc: Global,
    t: &AngleLists,
    shape: ViewShape,
    angles: &[u32],
) -> Result<Vec<i32>, AllocError>
    requires len { length angles.now ≡ shape.width + 1 }
    requires items { (k : ℕ) → k ≤ shape.width →
        slice_index angles.now k ≡ angle_of_column t.now shape (shape.width - k) }
    ensures len { IfOk result (λ v. length v.items ≡ shape.width) }
    ensures items { IfOk result (λ v. (x : ℕ) → x < shape.width →
        slice_index_or v.items x (pos 0) ≡ dist_scale t.now shape x) }
{
    let width = shape.width as usize;
    let mut scales = Vec::with_capacity(alloc, width)?;
    for x in 0..width {
        scales.push(angle_dist_scale(t, angles[width - x]))?;
    }
    Ok(scales)
}
