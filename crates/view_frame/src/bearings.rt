// Angles, distances and scales of a point or wall: rules `bearing`, `origin_dist`, `scale_by`.

ghost use Rattle.std.specs.Prelude.{◌≡◌, ◌≤◌, ◌<◌, ◌≤ℤ◌, ◌<ℤ◌, pos, unsigned_abs};
ghost use Rattle.word_rules.specs.Words.{div, shr_word};
ghost use Rattle.view_rules.specs.Bearings.{slope_angle, bearing, slope_sine, sorted_dist, origin_dist, scale_by};
ghost use Rattle.view_rules.specs.declared.TheConstants.{MIN_SCALE, MAX_SCALE, SLOPE_BITS, SLOPE_ANGLES};

use angle_tables::Tables;
use fx_words::{
    abs_word, clamp_word, div, fine_angle, greater_word, lesser_word, shr_word, slope_div, turn,
    turn_back,
};
use view_rules::{MAX_SCALE, MIN_SCALE, SLOPE_BITS};
use word_rules::{ANG90, ANG180, ANG270, FRACTION_BITS};

/// The angle of the slope p / q.
#[tactic(auto, unfolding(view_rules::specs::Bearings::slope_angle))]
fn slope_angle(tables: &Tables, p: u32, q: u32) -> u32
    ensures { result ≡ slope_angle tables.now.angles p q }
{
    tables.angle(slope_div(p, q) as usize)
}

/// The angle of a point seen from the origin.
#[tactic(auto, unfolding(view_rules::specs::Bearings::bearing))]
pub(crate) fn bearing(tables: &Tables, x: i32, y: i32) -> u32
    ensures { result ≡ bearing tables.now.angles x y }
{
    if x == 0 && y == 0 {
        return 0;
    }
    let a = abs_word(x).unsigned_abs();
    let b = abs_word(y).unsigned_abs();
    let slope = slope_angle(tables, a.min(b), a.max(b));
    match (x < 0, y < 0, a <= b) {
        (false, false, false) => slope,
        (false, false, true) => turn_back(ANG90 - 1, slope),
        (false, true, false) => turn_back(0, slope),
        (false, true, true) => turn(ANG270, slope),
        (true, false, false) => turn_back(ANG180 - 1, slope),
        (true, false, true) => turn(ANG90, slope),
        (true, true, false) => turn(ANG180, slope),
        (true, true, true) => turn_back(ANG270 - 1, slope),
    }
}

/// The steps of the slope dy / dx, whose greatest is the eighth of a turn.
fn slope_steps(dx: i32, dy: i32) -> usize
    requires positive { pos 0 <ℤ dx }
    requires least { pos 0 ≤ℤ dy }
    requires order { dy ≤ℤ dx }
    ensures value { result ≡ unsigned_abs (shr_word (div dy dx) SLOPE_BITS) }
    ensures bound { result < SLOPE_ANGLES }
{
    shr_word(div(dy, dx), SLOPE_BITS).unsigned_abs() as usize
}

/// The sine that stands for the cosine of the slope's angle.
#[tactic(auto, unfolding(view_rules::specs::Bearings::slope_sine))]
fn slope_sine(tables: &Tables, dx: i32, dy: i32) -> i32
    requires positive { pos 0 <ℤ dx }
    requires least { pos 0 ≤ℤ dy }
    requires order { dy ≤ℤ dx }
    ensures { result ≡ slope_sine tables.now.angles dx dy }
{
    let angle = tables.angle(slope_steps(dx, dy));
    tables.sine(fine_angle(turn(angle, ANG90)))
}

/// The distance by the greater and the lesser of two absolute differences.
#[tactic(auto, unfolding(view_rules::specs::Bearings::sorted_dist))]
fn sorted_dist(tables: &Tables, dx: i32, dy: i32) -> i32
    requires least { pos 0 ≤ℤ dy }
    requires order { dy ≤ℤ dx }
    ensures { result ≡ sorted_dist tables.now.angles dx dy }
{
    if dx == 0 {
        return 0;
    }
    div(dx, slope_sine(tables, dx, dy))
}

/// The distance from the origin of a point whose coordinates have the absolute values `a` and `b`.
#[tactic(auto, unfolding(view_rules::specs::Bearings::origin_dist))]
pub(crate) fn origin_dist(tables: &Tables, a: i32, b: i32) -> i32
    requires first { pos 0 ≤ℤ a }
    requires second { pos 0 ≤ℤ b }
    ensures { result ≡ origin_dist tables.now.angles a b }
{
    sorted_dist(tables, greater_word(a, b), lesser_word(a, b))
}

/// The scale by its two parts.
#[tactic(auto, unfolding(view_rules::specs::Bearings::scale_by))]
pub(crate) fn scale_by(num: i32, den: i32) -> i32
    ensures value { result ≡ scale_by num den }
    ensures least { MIN_SCALE ≤ℤ result }
    ensures greatest { result ≤ℤ MAX_SCALE }
{
    if shr_word(num, FRACTION_BITS) < den {
        clamp_word(MIN_SCALE, MAX_SCALE, div(num, den))
    } else {
        MAX_SCALE
    }
}
