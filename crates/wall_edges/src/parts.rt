// The textures of a fragment, and their texel rows at the view's centre row: rules `picture_rules/wall`,
// Parts.

ghost use Rattle.std.specs.Prelude.{◌≡◌};
ghost use Rattle.picture_rules.specs.Words.{bottom_is_unpegged, bottom_mid, bottom_part, is_masked, mid_from, middle_mid, middle_part, no_part, top_is_unpegged, top_mid, top_part};

use crate::heights::{world_bottom, world_high, world_low, world_top};
use picture_rules::{BOTTOM_UNPEGGED, Part, Seg, Surface, TOP_UNPEGGED, WallFacts, WallTexture};
use view_frame::{fixed, minus, plus};

fn no_part() -> Part
    ensures { result ≡ no_part }
{
    Part { number: 0, mid: 0 }
}

#[tactic(auto, unfolding(picture_rules::specs::wall::Parts::top_is_unpegged))]
fn top_is_unpegged(seg: &Seg) -> bool
    ensures { result ≡ top_is_unpegged seg.now }
{
    seg.flags & TOP_UNPEGGED != 0
}

#[tactic(auto, unfolding(picture_rules::specs::wall::Parts::bottom_is_unpegged))]
fn bottom_is_unpegged(seg: &Seg) -> bool
    ensures { result ≡ bottom_is_unpegged seg.now }
{
    seg.flags & BOTTOM_UNPEGGED != 0
}

// The mid of a texture that stands with its bottom at height `z`.
#[tactic(auto, unfolding(picture_rules::specs::wall::Parts::mid_from))]
fn mid_from(eye_z: i32, z: i32, texture: WallTexture) -> i32
    ensures { result ≡ mid_from eye_z z texture }
{
    minus(plus(z, fixed(texture.height as i32)), eye_z)
}

#[tactic(auto, unfolding(picture_rules::specs::wall::Parts::middle_mid))]
fn middle_mid(eye_z: i32, facts: &WallFacts) -> i32
    ensures { result ≡ middle_mid eye_z facts.now }
{
    if bottom_is_unpegged(&facts.seg) {
        mid_from(eye_z, facts.front.floor, facts.middle)
    } else {
        world_top(eye_z, facts.front, facts.back)
    }
}

/// The wall of a line with one side.
#[tactic(auto, unfolding(picture_rules::specs::wall::Parts::middle_part))]
pub fn middle_part(eye_z: i32, facts: &WallFacts, back: Option<Surface>) -> Part
    ensures { result ≡ middle_part eye_z facts.now back }
{
    match back {
        Some(_) => no_part(),
        None => Part {
            number: facts.middle.number,
            mid: plus(middle_mid(eye_z, facts), facts.y_offset),
        },
    }
}

#[tactic(auto, unfolding(picture_rules::specs::wall::Parts::top_mid))]
fn top_mid(eye_z: i32, facts: &WallFacts, back: Surface) -> i32
    ensures { result ≡ top_mid eye_z facts.now back }
{
    if top_is_unpegged(&facts.seg) {
        world_top(eye_z, facts.front, facts.back)
    } else {
        mid_from(eye_z, back.ceiling, facts.top)
    }
}

/// The upper wall, where the ceiling behind is lower.
#[tactic(auto, unfolding(picture_rules::specs::wall::Parts::top_part))]
pub fn top_part(eye_z: i32, facts: &WallFacts, back: Option<Surface>) -> Part
    ensures { result ≡ top_part eye_z facts.now back }
{
    let Some(back) = back else { return no_part() };
    if world_high(eye_z, Some(back)) < world_top(eye_z, facts.front, Some(back)) {
        Part {
            number: facts.top.number,
            mid: plus(top_mid(eye_z, facts, back), facts.y_offset),
        }
    } else {
        no_part()
    }
}

#[tactic(auto, unfolding(picture_rules::specs::wall::Parts::bottom_mid))]
fn bottom_mid(eye_z: i32, facts: &WallFacts) -> i32
    ensures { result ≡ bottom_mid eye_z facts.now }
{
    if bottom_is_unpegged(&facts.seg) {
        world_top(eye_z, facts.front, facts.back)
    } else {
        world_low(eye_z, facts.back)
    }
}

/// The lower wall, where the floor behind is higher.
#[tactic(auto, unfolding(picture_rules::specs::wall::Parts::bottom_part))]
pub fn bottom_part(eye_z: i32, facts: &WallFacts, back: Option<Surface>) -> Part
    ensures { result ≡ bottom_part eye_z facts.now back }
{
    let Some(back) = back else { return no_part() };
    if world_bottom(eye_z, facts.front) < world_low(eye_z, Some(back)) {
        Part {
            number: facts.bottom.number,
            mid: plus(bottom_mid(eye_z, facts), facts.y_offset),
        }
    } else {
        no_part()
    }
}

/// Whether the middle texture is seen through.
#[tactic(auto, unfolding(picture_rules::specs::wall::Parts::is_masked))]
pub fn is_masked(facts: &WallFacts, back: Option<Surface>) -> bool
    ensures { result ≡ is_masked facts.now back }
{
    match back {
        Some(_) => facts.middle.number != 0,
        None => false,
    }
}
