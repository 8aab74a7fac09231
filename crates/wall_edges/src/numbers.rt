// The numbers of a fragment: rules `picture_rules/wall`, Scales and Numbers.

ghost use Rattle.std.specs.Prelude.{◌≡◌, ◌<◌, ◌≤◌};
ghost use Rattle.picture_rules.specs.Words.{fragment_numbers, LIGHT_LEVELS, numbers_by, scale_of_column, scale_step, seg_contrast, seg_distance, seg_light, silhouette_of};

use crate::columns::angle_of_column;
use crate::heights::{world_bottom, world_high, world_low, world_top};
use crate::line::seg_normal;
use crate::marks::{ceiling_mark, floor_mark};
use crate::parts::{bottom_part, is_masked, middle_part, top_part};
use crate::silhouettes::{bottom_is_constant, bottom_silhouette, top_is_constant, top_silhouette};
use picture_rules::{FragmentNumbers, SIL_BOTTOM, SIL_TOP, Seg, WallFacts};
use view_frame::{View, minus, same_word, turn};

/// The scale of a seg, whose line is `distance` off, at column `x`.
#[tactic(auto, unfolding(picture_rules::specs::wall::Scales::scale_of_column))]
fn scale_of_column(view: &View<'_>, seg: &Seg, distance: i32, x: u16) -> i32
    requires within { x < view.now.shape.width }
    requires distance { distance ≡ seg_distance view.now seg.now }
    ensures { result ≡ scale_of_column view.now seg.now x }
{
    let look = turn(view.eye().angle, angle_of_column(view, x));
    view.scale_at(look, seg_normal(seg), distance)
}

/// What the scale gains a column over `n` steps; 0 for one column.
#[tactic(auto, unfolding(picture_rules::specs::wall::Scales::scale_step))]
fn scale_step(scale1: i32, scale2: i32, n: u16) -> i32
    ensures { result ≡ scale_step scale1 scale2 n }
{
    if n == 0 {
        0
    } else {
        minus(scale2, scale1) / n as i32
    }
}

// A wall along the x axis is darker, one along the y axis brighter.
#[tactic(auto, unfolding(picture_rules::specs::wall::Numbers::seg_contrast))]
fn seg_contrast(seg: &Seg) -> i8
    ensures { result ≡ seg_contrast seg.now }
{
    if same_word(seg.y1, seg.y2) {
        -1
    } else if same_word(seg.x1, seg.x2) {
        1
    } else {
        0
    }
}

/// The light number, 0 to 15, of a wall along the seg before a sector of this light (0 to 255):
/// one less than the sector's where the seg runs along the x axis, one more along the y axis.
///
/// Takes no memory.
///
/// The original: `lightnum` and `walllights`, `R_StoreWallRange` and `R_RenderMaskedSegRange`,
/// r_segs.c.
#[tactic(auto, unfolding(picture_rules::specs::wall::Numbers::seg_light))]
pub fn seg_light(view: &View<'_>, seg: &Seg, light: i16) -> u8
    ensures value { result ≡ seg_light view.now seg.now light }
    ensures bound { result < LIGHT_LEVELS }
{
    view.light_number(light, seg_contrast(seg))
}

// The numbers by the two scales and the number of steps between them.
#[tactic(auto, unfolding(picture_rules::specs::wall::Numbers::numbers_by))]
fn numbers_by(
    view: &View<'_>,
    facts: &WallFacts,
    n: u16,
    scale1: i32,
    scale2: i32,
) -> FragmentNumbers
    ensures { result ≡ numbers_by view.now facts.now n scale1 scale2 }
{
    let eye_z = view.eye().z;
    let masked = is_masked(facts, facts.back);
    FragmentNumbers {
        scale1,
        scale2,
        step: scale_step(scale1, scale2, n),
        world_top: world_top(eye_z, facts.front, facts.back),
        world_bottom: world_bottom(eye_z, facts.front),
        world_high: world_high(eye_z, facts.back),
        world_low: world_low(eye_z, facts.back),
        floor_mark: floor_mark(eye_z, facts.front, facts.back),
        ceiling_mark: ceiling_mark(eye_z, facts.front, facts.back),
        bottom: bottom_silhouette(eye_z, facts.front, facts.back, masked),
        top: top_silhouette(eye_z, facts.front, facts.back, masked),
        bottom_is_constant: bottom_is_constant(facts.front, facts.back),
        top_is_constant: top_is_constant(facts.front, facts.back),
        middle_part: middle_part(eye_z, facts, facts.back),
        top_part: top_part(eye_z, facts, facts.back),
        bottom_part: bottom_part(eye_z, facts, facts.back),
        masked,
        light: seg_light(view, &facts.seg, facts.front.light),
    }
}

/// The numbers of the fragment from column `first` to column `last`, whose line is `distance` off.
#[tactic(auto, unfolding(picture_rules::specs::wall::Numbers::fragment_numbers))]
pub fn fragment_numbers(
    view: &View<'_>,
    facts: &WallFacts,
    distance: i32,
    first: u16,
    last: u16,
) -> FragmentNumbers
    requires ordered { first ≤ last }
    requires within { last < view.now.shape.width }
    requires distance { distance ≡ seg_distance view.now facts.now.seg }
    ensures { result ≡ fragment_numbers view.now facts.now first last }
{
    let scale1 = scale_of_column(view, &facts.seg, distance, first);
    let scale2 = scale_of_column(view, &facts.seg, distance, last);
    numbers_by(view, facts, last - first, scale1, scale2)
}

/// The two silhouettes as bits.
#[tactic(auto, unfolding(picture_rules::specs::wall::Notes::silhouette_of))]
pub fn silhouette_of(numbers: &FragmentNumbers) -> u8
    ensures { result ≡ silhouette_of numbers.now }
{
    SIL_BOTTOM * numbers.bottom.is_there as u8 + SIL_TOP * numbers.top.is_there as u8
}
