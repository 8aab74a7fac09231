// The side of a line on which a point lies: rule `side_of`.

ghost use Rattle.std.specs.Prelude.{◌≡◌, ◌≤◌};
ghost use Rattle.view_rules.specs.Sides.{side_of, side_by_slope, side_by_product};

use fx_words::{minus, mul, shr_word, signs_differ};
use view_rules::Partition;
use word_rules::FRACTION_BITS;

/// The side of `line` on which the point x, y (map units, 16.16) lies: 0 in front, 1 behind.
///
/// The original: `R_PointOnSide`, r_main.c; with a seg's first vertex and the difference of its
/// vertices `R_PointOnSegSide`.
#[tactic(auto, unfolding(view_rules::specs::Sides::side_of))]
pub fn side_of(line: Partition, x: i32, y: i32) -> u8
    ensures value { result ≡ side_of line x y }
    ensures bound { result ≤ 1 }
{
    if line.dx == 0 {
        return if x <= line.x {
            (line.dy > 0) as u8
        } else {
            (line.dy < 0) as u8
        };
    }
    if line.dy == 0 {
        return if y <= line.y {
            (line.dx < 0) as u8
        } else {
            (line.dx > 0) as u8
        };
    }
    side_by_slope(line, minus(x, line.x), minus(y, line.y))
}

/// The side of a point that lies `dx` and `dy` from the line's own point.
#[tactic(auto, unfolding(view_rules::specs::Sides::side_by_slope))]
fn side_by_slope(line: Partition, dx: i32, dy: i32) -> u8
    ensures value { result ≡ side_by_slope line dx dy }
    ensures bound { result ≤ 1 }
{
    let falling = signs_differ(line.dy, line.dx);
    let falling_point = signs_differ(dx, dy);
    if falling != falling_point {
        signs_differ(line.dy, dx) as u8
    } else {
        side_by_product(line, dx, dy)
    }
}

/// The side by the cross product.
#[tactic(auto, unfolding(view_rules::specs::Sides::side_by_product))]
fn side_by_product(line: Partition, dx: i32, dy: i32) -> u8
    ensures value { result ≡ side_by_product line dx dy }
    ensures bound { result ≤ 1 }
{
    let left = mul(shr_word(line.dy, FRACTION_BITS), dx);
    let right = mul(dy, shr_word(line.dx, FRACTION_BITS));
    (left <= right) as u8
}
