// Where a fragment clips what is behind it: rules `picture_rules/wall`, Silhouettes.

ghost use Rattle.std.specs.Prelude.{◌≡◌};
ghost use Rattle.picture_rules.specs.Words.{bottom_by_step, bottom_is_constant, bottom_silhouette, no_silhouette, shuts_bottom, shuts_top, silhouette_at, top_by_step, top_is_constant, top_silhouette, with_masked};

use picture_rules::{Silhouette, Surface};

// Nothing is clipped.
fn no_silhouette() -> Silhouette
    ensures { result ≡ no_silhouette }
{
    Silhouette {
        is_there: false,
        height: 0,
    }
}

// What is behind is clipped up to `height`.
fn silhouette_at(height: i32) -> Silhouette
    ensures { result ≡ silhouette_at height }
{
    Silhouette {
        is_there: true,
        height,
    }
}

/// Whether the ceiling behind is not above the floor in front.
#[tactic(auto, unfolding(picture_rules::specs::wall::Silhouettes::shuts_bottom))]
pub fn shuts_bottom(front: Surface, back: Surface) -> bool
    ensures { result ≡ shuts_bottom front back }
{
    back.ceiling <= front.floor
}

/// Whether the floor behind is not below the ceiling in front.
#[tactic(auto, unfolding(picture_rules::specs::wall::Silhouettes::shuts_top))]
pub fn shuts_top(front: Surface, back: Surface) -> bool
    ensures { result ≡ shuts_top front back }
{
    front.ceiling <= back.floor
}

#[tactic(auto, unfolding(picture_rules::specs::wall::Silhouettes::bottom_by_step))]
fn bottom_by_step(eye_z: i32, front: Surface, back: Surface) -> Silhouette
    ensures { result ≡ bottom_by_step eye_z front back }
{
    if back.floor < front.floor {
        silhouette_at(front.floor)
    } else if eye_z < back.floor {
        silhouette_at(i32::MAX)
    } else {
        no_silhouette()
    }
}

#[tactic(auto, unfolding(picture_rules::specs::wall::Silhouettes::top_by_step))]
fn top_by_step(eye_z: i32, front: Surface, back: Surface) -> Silhouette
    ensures { result ≡ top_by_step eye_z front back }
{
    if front.ceiling < back.ceiling {
        silhouette_at(front.ceiling)
    } else if back.ceiling < eye_z {
        silhouette_at(i32::MIN)
    } else {
        no_silhouette()
    }
}

// A masked fragment has the silhouette in any case.
#[tactic(auto, unfolding(picture_rules::specs::wall::Silhouettes::with_masked))]
fn with_masked(masked: bool, height: i32, s: Silhouette) -> Silhouette
    ensures { result ≡ with_masked masked height s }
{
    if s.is_there {
        s
    } else if masked {
        silhouette_at(height)
    } else {
        s
    }
}

/// How the fragment clips from below.
#[tactic(auto, unfolding(picture_rules::specs::wall::Silhouettes::bottom_silhouette))]
pub fn bottom_silhouette(
    eye_z: i32,
    front: Surface,
    back: Option<Surface>,
    masked: bool,
) -> Silhouette
    ensures { result ≡ bottom_silhouette eye_z front back masked }
{
    match back {
        Some(back) => {
            if shuts_bottom(front, back) {
                silhouette_at(i32::MAX)
            } else {
                with_masked(masked, i32::MAX, bottom_by_step(eye_z, front, back))
            }
        }
        None => silhouette_at(i32::MAX),
    }
}

/// How the fragment clips from above.
#[tactic(auto, unfolding(picture_rules::specs::wall::Silhouettes::top_silhouette))]
pub fn top_silhouette(eye_z: i32, front: Surface, back: Option<Surface>, masked: bool) -> Silhouette
    ensures { result ≡ top_silhouette eye_z front back masked }
{
    match back {
        Some(back) => {
            if shuts_top(front, back) {
                silhouette_at(i32::MIN)
            } else {
                with_masked(masked, i32::MIN, top_by_step(eye_z, front, back))
            }
        }
        None => silhouette_at(i32::MIN),
    }
}

/// Whether the clip from below is the same in each column.
#[tactic(auto, unfolding(picture_rules::specs::wall::Silhouettes::bottom_is_constant))]
pub fn bottom_is_constant(front: Surface, back: Option<Surface>) -> bool
    ensures { result ≡ bottom_is_constant front back }
{
    match back {
        Some(back) => shuts_bottom(front, back),
        None => true,
    }
}

/// Whether the clip from above is the same in each column.
#[tactic(auto, unfolding(picture_rules::specs::wall::Silhouettes::top_is_constant))]
pub fn top_is_constant(front: Surface, back: Option<Surface>) -> bool
    ensures { result ≡ top_is_constant front back }
{
    match back {
        Some(back) => shuts_top(front, back),
        None => true,
    }
}
