// The heights of a fragment's sectors above the viewpoint: rules `picture_rules/wall`, Heights.

ghost use Rattle.std.specs.Prelude.{◌≡◌};
ghost use Rattle.picture_rules.specs.Words.{both_sky, is_sky, world_bottom, world_high, world_low, world_top};

use picture_rules::{SKY_FLAT, Surface};
use view_frame::minus;

/// Whether the flat is sky.
pub fn is_sky(flat: u32) -> bool
    ensures { result ≡ is_sky flat }
{
    flat == SKY_FLAT
}

#[tactic(auto, unfolding(picture_rules::specs::wall::Heights::both_sky))]
fn both_sky(front: Surface, back: Surface) -> bool
    ensures { result ≡ both_sky front back }
{
    is_sky(front.ceiling_flat) && is_sky(back.ceiling_flat)
}

/// The height of the ceiling behind, 0 where there is none.
#[tactic(auto, unfolding(picture_rules::specs::wall::Heights::world_high))]
pub fn world_high(eye_z: i32, back: Option<Surface>) -> i32
    ensures { result ≡ world_high eye_z back }
{
    let Some(back) = back else { return 0 };
    minus(back.ceiling, eye_z)
}

/// The height of the floor behind, 0 where there is none.
#[tactic(auto, unfolding(picture_rules::specs::wall::Heights::world_low))]
pub fn world_low(eye_z: i32, back: Option<Surface>) -> i32
    ensures { result ≡ world_low eye_z back }
{
    let Some(back) = back else { return 0 };
    minus(back.floor, eye_z)
}

/// The height of the ceiling in front; where sky meets sky, that of the ceiling behind.
#[tactic(auto, unfolding(picture_rules::specs::wall::Heights::world_top))]
pub fn world_top(eye_z: i32, front: Surface, back: Option<Surface>) -> i32
    ensures { result ≡ world_top eye_z front back }
{
    match back {
        Some(back) => {
            if both_sky(front, back) {
                minus(back.ceiling, eye_z)
            } else {
                minus(front.ceiling, eye_z)
            }
        }
        None => minus(front.ceiling, eye_z),
    }
}

/// The height of the floor in front.
#[tactic(auto, unfolding(picture_rules::specs::wall::Heights::world_bottom))]
pub fn world_bottom(eye_z: i32, front: Surface) -> i32
    ensures { result ≡ world_bottom eye_z front }
{
    minus(front.floor, eye_z)
}
