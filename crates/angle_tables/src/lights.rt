// The colormaps of lights by scale and by distance: rules `scale_light`, `distance_light`. The
// original: `R_InitLightTables`, r_main.c, and `R_ExecuteSetViewSize`.

ghost use Rattle.std.specs.Prelude.{◌≡◌, ℕ, ◌+◌, ◌-◌, ◌*◌, ◌/◌, ◌%◌, ◌<◌, min, length, slice_index, IfOk};
ghost use Rattle.angle_tables.specs.Rules.{COLORMAPS, DISTANCE_STEPS, LIGHT_LEVELS, SCALE_STEPS, distance_light, near_light, scale_light, start_map};

use fx_words::{div, shr_word};
use std::alloc::{AllocError, Global};
use view_rules::{
    COLORMAPS, DISTANCE_SHIFT, DISTANCE_STEPS, FRAME_WIDTH, LIGHT_LEVELS, SCALE_SHIFT, SCALE_STEPS,
    ViewShape,
};
use word_rules::FRACTION_UNIT;

/// The colormap of light `i` where nothing brightens it, which may be past the darkest.
#[tactic(auto, unfolding(view_rules::specs::Tables::start_map))]
fn start_map(i: usize) -> usize
    requires { i < LIGHT_LEVELS }
    ensures { result ≡ start_map i }
{
    (LIGHT_LEVELS - 1 - i) * 2 * COLORMAPS as usize / LIGHT_LEVELS
}

/// The colormap of light `i` that something brightens.
fn brightened(i: usize, by: usize) -> u8
    requires { i < LIGHT_LEVELS }
    ensures { result ≡ min (COLORMAPS - 1) (start_map i - by) }
{
    start_map(i).saturating_sub(by).min(COLORMAPS as usize - 1) as u8
}

/// The colormap of light `i` at scale step `j`.
#[tactic(auto, unfolding(view_rules::specs::Tables::scale_light))]
fn scale_light(shape: ViewShape, i: usize, j: usize) -> u8
    requires width { 0 < shape.width }
    requires light { i < LIGHT_LEVELS }
    requires step { j < SCALE_STEPS }
    ensures { result ≡ scale_light shape i j }
{
    brightened(i, j * FRAME_WIDTH as usize / shape.width as usize / 2)
}

/// How much distance step `j` brightens.
#[tactic(auto, unfolding(view_rules::specs::Tables::near_light))]
fn near_light(j: usize) -> usize
    requires { j < DISTANCE_STEPS }
    ensures { result ≡ near_light j }
{
    let distance = ((j as u32 + 1) << DISTANCE_SHIFT) as i32;
    let scale = div(FRAME_WIDTH as i32 / 2 * FRACTION_UNIT, distance);
    (shr_word(scale, SCALE_SHIFT).unsigned_abs() / 2) as usize
}

/// The colormap of light `i` at distance step `j`.
#[tactic(auto, unfolding(view_rules::specs::Tables::distance_light))]
fn distance_light(i: usize, j: usize) -> u8
    requires light { i < LIGHT_LEVELS }
    requires step { j < DISTANCE_STEPS }
    ensures { result ≡ distance_light i j }
{
    brightened(i, near_light(j))
}

/// The colormap of each light at each scale step, light by light.
pub(crate) fn scale_lights(alloc: Global, shape: ViewShape) -> Result<Vec<u8>, AllocError>
    requires { 0 < shape.width }
    ensures len { IfOk result (λ v. length v.items ≡ LIGHT_LEVELS * SCALE_STEPS) }
    ensures items { IfOk result (λ v. (n : ℕ) → n < LIGHT_LEVELS * SCALE_STEPS →
        slice_index v.items n ≡ scale_light shape (n / SCALE_STEPS) (n % SCALE_STEPS)) }
{
    let mut maps = Vec::with_capacity(alloc, LIGHT_LEVELS * SCALE_STEPS)?;
    for n in 0..LIGHT_LEVELS * SCALE_STEPS {
        maps.push(scale_light(shape, n / SCALE_STEPS, n % SCALE_STEPS))?;
    }
    Ok(maps)
}

/// The colormap of each light at each distance step, light by light.
pub(crate) fn distance_lights(alloc: Global) -> Result<Vec<u8>, AllocError>
    ensures len { IfOk result (λ v. length v.items ≡ LIGHT_LEVELS * DISTANCE_STEPS) }
    ensures items { IfOk result (λ v. (n : ℕ) → n < LIGHT_LEVELS * DISTANCE_STEPS →
        slice_index v.items n ≡ distance_light (n / DISTANCE_STEPS) (n % DISTANCE_STEPS)) }
{
    let mut maps = Vec::with_capacity(alloc, LIGHT_LEVELS * DISTANCE_STEPS)?;
    for n in 0..LIGHT_LEVELS * DISTANCE_STEPS {
        maps.push(distance_light(n / DISTANCE_STEPS, n % DISTANCE_STEPS))?;
    }
    Ok(maps)
}
