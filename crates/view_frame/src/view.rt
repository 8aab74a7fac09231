// A view: the tables, and the viewpoint that sees by them.

ghost use Rattle.std.specs.Prelude.{◌≡◌, ℕ, ◌+◌, ◌<◌, ◌≤◌, ◌^◌, ◌-◌, min, ◌≤ℤ◌, pos, Option, Some};
ghost use Rattle.word_rules.specs.Words.{turn, turn_back, ang90, fine_angle, bits_of, shr_word};
ghost use Rattle.view_rules.specs.View.{ViewValue, view_of};
ghost use Rattle.view_rules.specs.Bearings.{point_angle, point_dist, scale_numerator, scale_denominator, scale_at};
ghost use Rattle.view_rules.specs.Ranges.{column_at_angle, range_between, range_in_front, column_range};
ghost use Rattle.view_rules.specs.Lights.{light_number, fixed_or, scale_map, distance_map, bright_map};
ghost use Rattle.view_rules.specs.Sound.{IsSound, IsWithinFrame};
ghost use Rattle.view_rules.specs.Shape.{shape_of_size};
ghost use Rattle.view_rules.specs.declared.ColumnRange.{ColumnRange};
ghost use Rattle.view_rules.specs.declared.TheConstants.{LIGHT_LEVELS, MIN_SCALE, MAX_SCALE, SCALE_STEPS, SCALE_SHIFT, DISTANCE_STEPS, DISTANCE_SHIFT};

use crate::bearings::{bearing, origin_dist, scale_by};
use crate::ranges::{clipped_left, clipped_right};
use angle_tables::{Tables, projection};
use fx_words::{abs_word, clamp_word, fine_angle, minus, mul, plus, shr_word, turn, turn_back};
use std::marker::Model;
use view_rules::{
    ColumnRange, DISTANCE_SHIFT, DISTANCE_STEPS, Eye, LIGHT_LEVELS, LIGHT_SHIFT, SCALE_SHIFT,
    SCALE_STEPS, Spans, ViewShape,
};
use word_rules::{ANG90, ANG180};

/// What a viewpoint sees by the tables of one size.
#[derive(Drop)]
pub struct View<'a> {
    tables: &'a Tables,
    eye: Eye,
}

impl<'a> Model for View<'a> {
    ghost use Rattle.view_rules.specs.View.{ViewValue, view_of};

    ghost Value = { ViewValue };

    ghost view = { λ v. view_of v.tables.now v.eye };
}

impl<'a> View<'a> {
    /// The view of `eye`.
    pub fn new(tables: &'a Tables, eye: Eye) -> View<'a>
        ensures { result ≡ view_of tables.now eye }
    {
        View { tables, eye }
    }

    /// The tables by which the view sees.
    pub fn tables(&self) -> &'a Tables
        ensures angles { result.now.angles ≡ self.now.tables }
        ensures shape { shape_of_size result.now.size ≡ self.now.shape }
    {
        self.tables
    }

    /// How spans are stepped.
    pub fn spans(&self) -> Spans
        ensures { result ≡ self.now.spans }
    {
        self.tables.spans()
    }

    /// The viewpoint.
    pub fn eye(&self) -> Eye
        ensures { result ≡ self.now.eye }
    {
        self.eye
    }

    /// The view's columns and rows, its place in the frame, and the sky's step (16.16).
    pub fn shape(&self) -> ViewShape
        ensures value { result ≡ self.now.shape }
        ensures frame { IsWithinFrame result }
        ensures sound { IsSound self.now.tables result }
    {
        self.tables.shape()
    }

    /// The angle (BAM) at which the viewpoint sees the point x, y (map units, 16.16); 0 for its
    /// own place.
    ///
    /// The original: `R_PointToAngle`, r_main.c.
    #[tactic(auto, unfolding(view_rules::specs::Bearings::point_angle))]
    pub fn point_angle(&self, x: i32, y: i32) -> u32
        ensures { result ≡ point_angle self.now x y }
    {
        bearing(self.tables, minus(x, self.eye.x), minus(y, self.eye.y))
    }

    /// The distance (map units, 16.16) of the point x, y (map units, 16.16) from the viewpoint.
    ///
    /// The original: `R_PointToDist`, r_main.c. This project's own: 0 for the viewpoint's place.
    #[tactic(auto, unfolding(view_rules::specs::Bearings::point_dist))]
    pub fn point_dist(&self, x: i32, y: i32) -> i32
        ensures { result ≡ point_dist self.now x y }
    {
        let across = abs_word(minus(x, self.eye.x));
        let along = abs_word(minus(y, self.eye.y));
        origin_dist(self.tables, across, along)
    }

    /// The scale (16.16, pixels a map unit) at angle `visangle` (BAM) of a wall whose normal has
    /// the angle `normal` and which lies `distance` (map units, 16.16) off.
    ///
    /// The original: `R_ScaleFromGlobalAngle`, r_main.c.
    #[tactic(auto, unfolding(view_rules::specs::Bearings::scale_at))]
    pub fn scale_at(&self, visangle: u32, normal: u32, distance: i32) -> i32
        ensures value { result ≡ scale_at self.now visangle normal distance }
        ensures least { MIN_SCALE ≤ℤ result }
        ensures greatest { result ≤ℤ MAX_SCALE }
    {
        let num = self.scale_numerator(visangle, normal);
        let den = self.scale_denominator(visangle, distance);
        scale_by(num, den)
    }

    #[tactic(auto, unfolding(view_rules::specs::Bearings::scale_numerator))]
    fn scale_numerator(&self, visangle: u32, normal: u32) -> i32
        ensures { result ≡ scale_numerator self.now visangle normal }
    {
        let off = fine_angle(turn_back(turn(ANG90, visangle), normal));
        mul(projection(self.tables.shape()), self.tables.sine(off))
    }

    #[tactic(auto, unfolding(view_rules::specs::Bearings::scale_denominator))]
    fn scale_denominator(&self, visangle: u32, distance: i32) -> i32
        ensures { result ≡ scale_denominator self.now visangle distance }
    {
        let off = fine_angle(turn_back(turn(ANG90, visangle), self.eye.angle));
        mul(distance, self.tables.sine(off))
    }

    /// The columns from `angle1`, on the left, to `angle2` (both BAM): `Behind` where they span a
    /// half turn or more, `Outside` where they end before the view begins.
    ///
    /// The original: `R_AddLine` and `R_CheckBBox`, r_bsp.c.
    #[tactic(auto, unfolding(view_rules::specs::Ranges::column_range))]
    pub fn column_range(&self, angle1: u32, angle2: u32) -> ColumnRange
        ensures value { result ≡ column_range self.now angle1 angle2 }
        ensures order { (x1 x2 : ℕ) → result ≡ ColumnRange.Columns x1 x2 →
            (x1 ≤ x2) × (x2 ≤ self.now.shape.width) }
    {
        let span = turn_back(angle1, angle2);
        if span >= ANG180 {
            return ColumnRange::Behind;
        }
        let left = turn_back(angle1, self.eye.angle);
        let right = turn_back(angle2, self.eye.angle);
        self.range_in_front(span, left, right)
    }

    /// The columns of two angles that are taken from the view's own.
    #[tactic(auto, unfolding(view_rules::specs::Ranges::range_in_front))]
    fn range_in_front(&self, span: u32, angle1: u32, angle2: u32) -> ColumnRange
        requires { turn_back angle1 angle2 < 2 ^ 31 }
        ensures value { result ≡ range_in_front self.now span angle1 angle2 }
        ensures order { (x1 x2 : ℕ) → result ≡ ColumnRange.Columns x1 x2 →
            (x1 ≤ x2) × (x2 ≤ self.now.shape.width) }
    {
        let clip = self.tables.clip_angle();
        let left = clipped_left(clip, span, angle1);
        let right = clipped_right(clip, span, angle2);
        self.range_between(left, right)
    }

    /// The columns between two ends of a range.
    #[tactic(auto, unfolding(view_rules::specs::Ranges::range_between))]
    fn range_between(&self, left: Option<u32>, right: Option<u32>) -> ColumnRange
        requires { (a b : ℕ) → left ≡ Some a → right ≡ Some b →
            (turn a ang90 < 2 ^ 31) × (turn b ang90 < 2 ^ 31) }
        ensures { result ≡ range_between self.now left right }
    {
        let Some(left) = left else {
            return ColumnRange::Outside;
        };
        let Some(right) = right else {
            return ColumnRange::Outside;
        };
        let x1 = self.column_at_angle(left);
        let x2 = self.column_at_angle(right);
        ColumnRange::Columns { x1, x2 }
    }

    /// The column of an angle that is taken from the view's own.
    #[tactic(auto, unfolding(view_rules::specs::Ranges::column_at_angle))]
    fn column_at_angle(&self, angle: u32) -> u16
        requires { turn angle ang90 < 2 ^ 31 }
        ensures { result ≡ column_at_angle self.now angle }
    {
        self.tables.column_of_angle(fine_angle(turn(angle, ANG90))) as u16
    }

    /// The light number, 0 to 15, of a sector's light (0 to 255), changed by -1, 0 or 1.
    ///
    /// The original: `(light >> LIGHTSEGSHIFT) + extralight`, r_segs.c, r_plane.c and r_things.c.
    #[tactic(auto, unfolding(view_rules::specs::Lights::light_number))]
    pub fn light_number(&self, light: i16, change: i8) -> u8
        ensures value { result ≡ light_number self.now light change }
        ensures bound { result < LIGHT_LEVELS }
    {
        let lit = plus(
            shr_word(light as i32, LIGHT_SHIFT),
            self.eye.extralight as i32,
        );
        clamp_word(0, LIGHT_LEVELS as i32 - 1, plus(lit, change as i32)) as u8
    }

    /// The fixed colormap where there is one, else `number`.
    #[tactic(auto, unfolding(view_rules::specs::Lights::fixed_or))]
    fn fixed_or(&self, number: u8) -> u8
        ensures { result ≡ fixed_or self.now number }
    {
        if self.eye.colormap == 0 {
            number
        } else {
            self.eye.colormap
        }
    }

    /// The colormap of a wall or a sprite of this light number at `scale` (16.16).
    ///
    /// The original: `walllights`, r_segs.c, and `spritelights`, r_things.c.
    #[tactic(auto, unfolding(view_rules::specs::Lights::scale_map))]
    pub fn scale_map(&self, number: u8, scale: i32) -> u8
        requires light { number < LIGHT_LEVELS }
        requires scale { pos 0 ≤ℤ scale }
        ensures { result ≡ scale_map self.now number scale }
    {
        let step = scale_step(scale);
        self.fixed_or(self.tables.light_scale(number as usize, step))
    }

    /// The colormap of a floor or a ceiling of this light number at `distance` (map units, 16.16).
    ///
    /// The original: `planezlight`, r_plane.c.
    #[tactic(auto, unfolding(view_rules::specs::Lights::distance_map))]
    pub fn distance_map(&self, number: u8, distance: i32) -> u8
        requires { number < LIGHT_LEVELS }
        ensures { result ≡ distance_map self.now number distance }
    {
        let step = distance_step(distance);
        self.fixed_or(self.tables.light_z(number as usize, step))
    }

    /// The colormap of what is bright by itself.
    ///
    /// The original: `colormaps`, or `fixedcolormap`, r_things.c.
    #[tactic(auto, unfolding(view_rules::specs::Lights::bright_map))]
    pub fn bright_map(&self) -> u8
        ensures { result ≡ bright_map self.now }
    {
        self.fixed_or(0)
    }
}

/// The step of a scale.
fn scale_step(scale: i32) -> usize
    ensures value { result ≡ min (bits_of (shr_word scale SCALE_SHIFT)) (SCALE_STEPS - 1) }
    ensures bound { result < SCALE_STEPS }
{
    (shr_word(scale, SCALE_SHIFT).cast_unsigned() as usize).min(SCALE_STEPS - 1)
}

/// The step of a distance, read as unsigned.
fn distance_step(distance: i32) -> usize
    ensures value { result ≡ min (bits_of (shr_word distance DISTANCE_SHIFT)) (DISTANCE_STEPS - 1) }
    ensures bound { result < DISTANCE_STEPS }
{
    (shr_word(distance, DISTANCE_SHIFT).cast_unsigned() as usize).min(DISTANCE_STEPS - 1)
}
