// The planes that a leaf finds: rules `picture_rules/plane`, Keys.
ghost use Rattle.std.specs.Prelude.{◌≡◌, ◌≤◌};
ghost use Rattle.picture_rules.specs.Words.{ceiling_key, floor_key, key_of, SKY_FLAT};

use picture_rules::{Flat4, PlaneKey, SKY_FLAT, Surface};

// The key of a plane at that height; all sky has one.
#[tactic(auto, unfolding(picture_rules::specs::plane::Keys::key_of))]
fn key_of(height: i32, flat: u32, light: i16) -> PlaneKey
    requires { flat ≤ SKY_FLAT }
    ensures { result ≡ key_of height flat light }
{
    if flat == SKY_FLAT {
        PlaneKey {
            height: 0,
            flat: Flat4::Sky,
            light: 0,
        }
    } else {
        PlaneKey {
            height,
            flat: Flat4::Lump(flat as u16),
            light,
        }
    }
}

/// The key of a sector's floor, where it is below the viewpoint at height `eye_z` (map units,
/// 16.16); None where it is not seen.
///
/// The original: `R_Subsector`, r_bsp.c.
#[tactic(auto, unfolding(picture_rules::specs::plane::Keys::floor_key))]
pub fn floor_key(eye_z: i32, surface: &Surface) -> Option<PlaneKey>
    requires { surface.now.floor_flat ≤ SKY_FLAT }
    ensures { result ≡ floor_key eye_z surface.now }
{
    if surface.floor < eye_z {
        Some(key_of(surface.floor, surface.floor_flat, surface.light))
    } else {
        None
    }
}

/// The key of a sector's ceiling, where it is above the viewpoint at height `eye_z` (map units,
/// 16.16) or sky; None where it is not seen.
///
/// The original: `R_Subsector`, r_bsp.c.
#[tactic(auto, unfolding(picture_rules::specs::plane::Keys::ceiling_key))]
pub fn ceiling_key(eye_z: i32, surface: &Surface) -> Option<PlaneKey>
    requires { surface.now.ceiling_flat ≤ SKY_FLAT }
    ensures { result ≡ ceiling_key eye_z surface.now }
{
    if eye_z < surface.ceiling || surface.ceiling_flat == SKY_FLAT {
        Some(key_of(surface.ceiling, surface.ceiling_flat, surface.light))
    } else {
        None
    }
}
