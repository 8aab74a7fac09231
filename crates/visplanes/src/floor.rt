// What the spans of a plane are painted with, and one span.
ghost use Rattle.std.specs.Prelude.{◌≡◌, ◌+◌, ◌<◌, ◌≤◌, pos};
ghost use Rattle.picture_rules.specs.Words.{base_angle, base_x, base_y, cosine_at, FINE_ANGLES, FRAME_HEIGHT, FRAME_WIDTH, minus, mul, neg_word, plus, row_distance, sine_at, span_angle, span_length, span_x, span_y};
ghost use Rattle.pixel_strips.specs.Canvases.{with_dots};
ghost use Rattle.visplanes.specs.Spans.{floor_view, row_dots};

use picture_rules::{ANG90, PlaneKey};
use pixel_strips::{Canvas, SpanStrip, paint_span_as};
use std::marker::Model;
use view_frame::{
    View, abs_word, div, fine_angle, minus, mul, neg_word, plus, projection, turn, turn_back,
};

/// The view, the key of the plane, the bytes of its flat and of the colormaps; and what all rows
/// have in common: the light number, and what a column to the right gains at distance 1.
#[derive(Drop)]
pub struct Floor<'a, 'b> {
    view: &'a View<'b>,
    key: PlaneKey,
    flat: &'a [u8],
    colormap: &'a [u8],
    light: u8,
    gain_x: i32,
    gain_y: i32,
}

impl<'a, 'b> Model for Floor<'a, 'b> {
    ghost use Rattle.std.specs.Prelude.{◌≡◌, ◌<◌, pos};
    ghost use Rattle.picture_rules.specs.Words.{base_x, base_y, LIGHT_LEVELS, light_number};
    ghost use Rattle.visplanes.specs.Spans.{FloorView, floor_view};

    ghost Value = { FloorView };

    ghost view = { λ f. floor_view f.view.now f.key f.flat.now f.colormap.now };

    ghost invariant = { λ f. (f.light ≡ light_number f.view.now f.key.light (pos 0))
        × (f.light < LIGHT_LEVELS)
        × (f.gain_x ≡ base_x f.view.now) × (f.gain_y ≡ base_y f.view.now) };
}

impl<'a, 'b> Floor<'a, 'b> {
    /// The floor or ceiling of a key, seen by a view.
    pub fn new(
        view: &'a View<'b>,
        key: PlaneKey,
        flat: &'a [u8],
        colormap: &'a [u8],
    ) -> Floor<'a, 'b>
        ensures { result ≡ floor_view view.now key flat.now colormap.now }
    {
        Floor {
            view,
            key,
            flat,
            colormap,
            light: view.light_number(key.light, 0),
            gain_x: base_x(view),
            gain_y: base_y(view),
        }
    }

    /// Paints the span of columns `first` to `last` of row `y`, with the fractions of its first
    /// column.
    ///
    /// The original: `R_MapPlane`, r_plane.c.
    #[inline(always)]
    pub fn paint_row<C: Canvas>(&self, canvas: &mut C, y: u16, first: u16, last: u16)
        requires ordered { first ≤ last }
        requires column { last < self.now.view.shape.width }
        requires row { y < self.now.view.shape.height }
        requires frame_column { last + (C.view canvas.old).left < FRAME_WIDTH }
        requires frame_row { y + (C.view canvas.old).top < FRAME_HEIGHT }
        ensures { C.view canvas.new ≡ with_dots C.mark
            (row_dots self.now (C.view canvas.old).painter y first last) (C.view canvas.old) }
    {
        let distance = row_distance(self.view, self.key.height, y);
        let (x_fraction, y_fraction) = span_origin(self.view, distance, first);
        let strip = SpanStrip {
            y,
            first,
            last,
            x_fraction,
            y_fraction,
            x_step: mul(distance, self.gain_x),
            y_step: mul(distance, self.gain_y),
            flat: self.flat,
            colormap: self.colormap,
            map: self.view.distance_map(self.light, distance),
        };
        paint_span_as(canvas, &strip, self.view.spans());
    }
}

// A quarter turn right of the view's angle, as a fine angle.
#[tactic(auto, unfolding(picture_rules::specs::plane::Floors::base_angle))]
fn base_angle(view: &View<'_>) -> usize
    ensures value { result ≡ base_angle view.now }
    ensures bound { result < FINE_ANGLES }
{
    fine_angle(turn_back(view.eye().angle, ANG90))
}

// What a column to the right gains in x at distance 1, 16.16.
#[tactic(auto, unfolding(picture_rules::specs::plane::Floors::base_x))]
fn base_x(view: &View<'_>) -> i32
    ensures { result ≡ base_x view.now }
{
    div(
        view.tables().cosine(base_angle(view)),
        projection(view.shape()),
    )
}

// What a column to the right gains in y at distance 1, 16.16.
#[tactic(auto, unfolding(picture_rules::specs::plane::Floors::base_y))]
fn base_y(view: &View<'_>) -> i32
    ensures { result ≡ base_y view.now }
{
    neg_word(div(
        view.tables().sine(base_angle(view)),
        projection(view.shape()),
    ))
}

// The distance of row `y` of a plane of that height.
#[tactic(auto, unfolding(picture_rules::specs::plane::Floors::row_distance))]
fn row_distance(view: &View<'_>, height: i32, y: u16) -> i32
    requires { y < view.now.shape.height }
    ensures { result ≡ row_distance view.now height y }
{
    let off = abs_word(minus(height, view.eye().z));
    mul(off, view.tables().y_slope(y as usize))
}

// The distance along column `x0`'s ray to the floor at a row of that distance.
#[tactic(auto, unfolding(picture_rules::specs::plane::Floors::span_length))]
fn span_length(view: &View<'_>, distance: i32, x0: u16) -> i32
    requires { x0 < view.now.shape.width }
    ensures { result ≡ span_length view.now distance x0 }
{
    mul(distance, view.tables().dist_scale(x0 as usize))
}

// The fine angle of column `x0`.
#[tactic(auto, unfolding(picture_rules::specs::plane::Floors::span_angle))]
fn span_angle(view: &View<'_>, x0: u16) -> usize
    requires { x0 < view.now.shape.width }
    ensures value { result ≡ span_angle view.now x0 }
    ensures bound { result < FINE_ANGLES }
{
    fine_angle(turn(view.eye().angle, view.tables().angle_of_column(x0 as usize)))
}

// The fractions at column `x0` of a row at that distance.
#[inline(always)]
#[tactic(auto, unfolding(picture_rules::specs::plane::Floors::span_x, picture_rules::specs::plane::Floors::span_y))]
fn span_origin(view: &View<'_>, distance: i32, x0: u16) -> (i32, i32)
    requires { x0 < view.now.shape.width }
    ensures x { result.0 ≡ span_x view.now distance x0 }
    ensures y { result.1 ≡ span_y view.now distance x0 }
{
    let angle = span_angle(view, x0);
    let length = span_length(view, distance, x0);
    (along_x(view, angle, length), along_y(view, angle, length))
}

// The x that lies `length` off the viewpoint at a fine angle.
fn along_x(view: &View<'_>, angle: usize, length: i32) -> i32
    requires { angle < FINE_ANGLES }
    ensures { result ≡ plus view.now.eye.x (mul (cosine_at view.now.tables angle) length) }
{
    plus(view.eye().x, mul(view.tables().cosine(angle), length))
}

// The negated y that lies `length` off the viewpoint at a fine angle.
fn along_y(view: &View<'_>, angle: usize, length: i32) -> i32
    requires { angle < FINE_ANGLES }
    ensures { result ≡
        minus (neg_word view.now.eye.y) (mul (sine_at view.now.tables angle) length) }
{
    minus(
        neg_word(view.eye().y),
        mul(view.tables().sine(angle), length),
    )
}
