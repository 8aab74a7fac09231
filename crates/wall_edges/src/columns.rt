// The angles at which columns look, and the texture columns of a line: rules `picture_rules/wall`, Columns.

ghost use Rattle.std.specs.Prelude.{◌≡◌, ◌<◌};
ghost use Rattle.picture_rules.specs.Words.{angle_of_column, column_tangent, tangent_at, TANGENTS};
ghost use Rattle.wall_edges.specs.Lines.{column_of_line};

use crate::line::SegLine;
use picture_rules::{ANG90, FRACTION_BITS, TANGENTS};
use view_frame::{View, fine_angle, minus, mul, shr_word, turn, turn_back};

/// The angle (BAM) at which column `x` looks, from the view's own.
#[inline(always)]
pub fn angle_of_column(view: &View<'_>, x: u16) -> u32
    requires { x < view.now.shape.width }
    ensures { result ≡ angle_of_column view.now.tables view.now.shape x }
{
    view.tables().angle_of_column(x as usize)
}

/// The tangent of a fine angle from a quarter turn right.
#[inline(always)]
fn tangent(view: &View<'_>, fine: usize) -> i32
    requires { fine < TANGENTS }
    ensures { result ≡ tangent_at view.now.tables fine }
{
    view.tables().tangent(fine)
}

/// The fine angle between a normal and the look of column `x`.
#[inline(always)]
#[tactic(auto, unfolding(picture_rules::specs::wall::Columns::column_tangent))]
fn column_tangent(view: &View<'_>, normal: u32, x: u16) -> usize
    requires { x < view.now.shape.width }
    ensures value { result ≡ column_tangent view.now normal x }
    ensures bound { result < TANGENTS }
{
    let ahead = turn_back(turn(ANG90, view.eye().angle), normal);
    fine_angle(turn(ahead, angle_of_column(view, x))) % TANGENTS
}

/// The texture column of a line at column `x`.
#[inline(always)]
#[tactic(auto, unfolding(picture_rules::specs::wall::Columns::line_column))]
pub fn column_of_line(view: &View<'_>, line: SegLine, x: u16) -> i32
    requires { x < view.now.shape.width }
    ensures { result ≡ column_of_line view.now line x }
{
    let slope = tangent(view, column_tangent(view, line.normal, x));
    shr_word(minus(line.offset, mul(slope, line.distance)), FRACTION_BITS)
}
