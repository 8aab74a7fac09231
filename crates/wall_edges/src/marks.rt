// Whether a fragment marks rows of its leaf's planes: rules `picture_rules/wall`, Marks.

ghost use Rattle.std.specs.Prelude.{◌≡◌};
ghost use Rattle.picture_rules.specs.Words.{ceiling_mark, ceilings_differ, floor_mark, floors_differ, is_closed};

use crate::heights::{is_sky, world_bottom, world_high, world_low, world_top};
use crate::silhouettes::{shuts_bottom, shuts_top};
use picture_rules::Surface;

// Nothing is seen through the line.
#[tactic(auto, unfolding(picture_rules::specs::Words::is_closed, picture_rules::specs::wall::Silhouettes::shuts_bottom, picture_rules::specs::wall::Silhouettes::shuts_top))]
fn is_closed(front: Surface, back: Surface) -> bool
    ensures { result ≡ is_closed front back }
{
    shuts_bottom(front, back) || shuts_top(front, back)
}

#[tactic(auto, unfolding(picture_rules::specs::wall::Marks::floors_differ, picture_rules::specs::Words::same_word))]
fn floors_differ(eye_z: i32, front: Surface, back: Surface) -> bool
    ensures { result ≡ floors_differ eye_z front back }
{
    world_low(eye_z, Some(back)) != world_bottom(eye_z, front)
        || front.floor_flat != back.floor_flat
        || front.light != back.light
}

#[tactic(auto, unfolding(picture_rules::specs::wall::Marks::ceilings_differ, picture_rules::specs::Words::same_word))]
fn ceilings_differ(eye_z: i32, front: Surface, back: Surface) -> bool
    ensures { result ≡ ceilings_differ eye_z front back }
{
    world_high(eye_z, Some(back)) != world_top(eye_z, front, Some(back))
        || front.ceiling_flat != back.ceiling_flat
        || front.light != back.light
}

/// Whether rows of the floor are marked: not where it is at or above the viewpoint.
#[tactic(auto, unfolding(picture_rules::specs::wall::Marks::floor_mark, picture_rules::specs::wall::Marks::floor_shows))]
pub fn floor_mark(eye_z: i32, front: Surface, back: Option<Surface>) -> bool
    ensures { result ≡ floor_mark eye_z front back }
{
    if eye_z <= front.floor {
        return false;
    }
    match back {
        Some(back) => is_closed(front, back) || floors_differ(eye_z, front, back),
        None => true,
    }
}

/// Whether rows of the ceiling are marked: at or below the viewpoint only where it is sky.
#[tactic(auto, unfolding(picture_rules::specs::wall::Marks::ceiling_mark, picture_rules::specs::wall::Marks::ceiling_shows))]
pub fn ceiling_mark(eye_z: i32, front: Surface, back: Option<Surface>) -> bool
    ensures { result ≡ ceiling_mark eye_z front back }
{
    if front.ceiling <= eye_z && !is_sky(front.ceiling_flat) {
        return false;
    }
    match back {
        Some(back) => is_closed(front, back) || ceilings_differ(eye_z, front, back),
        None => true,
    }
}
