// Masked mid textures.
//
// Rules: `scene_rules`, Middles. The original: `R_RenderMaskedSegRange`, r_segs.c.
ghost use Rattle.std.specs.Prelude.{◌≡◌, ◌<◌, ◌^◌, ◌&&◌, ◌⊎◌, ℕ, true, false, All, length, IfOk};
ghost use Rattle.std.specs.List.{list_any};
ghost use Rattle.level_audit.specs.Rules.{bad_middle, is_all_single, is_bad_middle, is_seen_through, least, middle_of, texture_by};
ghost use Rattle.texture_build.specs.Views.{IsPrepared, is_marked, prepared_texture};
ghost use Rattle.sound_scene.specs.Views.{AddsMarks};
ghost use Rattle.sound_scene.specs.Whole.{AllColumnsSingle, IsMiddleSingle, IsNoneOrSingle};

use art_rules::OutOfMemory;
use scene_rules::{Seg, SideTextures};
use sound_scene::Marks;
use std::alloc::Global;
use texture_build::{TexNo, Textures};

/// The least side of a seg with a sector behind it whose middle texture is not number 0 and has, among
/// the columns that a texture column can stand for, one without exactly one patch; `None` where there
/// is no such side.
///
/// Where there is none, each of those columns is read from one patch, for each such seg (`none`).
///
/// Each seg is looked at once, and each side at most once. Takes a byte for each side while it runs.
///
/// Errors: `OutOfMemory`.
///
/// The original: `R_RenderMaskedSegRange`, r_segs.c, which reads posts where there may be none.
///
/// This project's own: such a level is refused.
pub fn find_bad_middle(
    alloc: Global,
    textures: &Textures,
    segs: &[Seg],
    sides: &[SideTextures],
) -> Result<Option<u16>, OutOfMemory>
    requires few { length sides.now < 2 ^ 16 }
    requires prepared { All (λ side. (side.middle ≡ 0) ⊎
        IsPrepared textures.now side.middle) sides.now }
    ensures value { IfOk result (λ side.
        side ≡ bad_middle (texture_by textures.now.prepared) segs.now sides.now) }
    ensures none { IfOk result (λ side. side ≡ None →
        All (IsMiddleSingle textures.now sides.now) segs.now) }
{
    let mut marks = Marks::none(alloc, sides.len())?;
    mark_sides(&mut marks, segs);
    Ok(first_bad(textures, &marks, sides))
}

// Marks the sides of the segs behind which there is a sector.
fn mark_sides(marks: &mut Marks, segs: &[Seg])
    ensures count { length marks.new ≡ length marks.old }
    ensures marked { AddsMarks marks.old marks.new (λ side.
        list_any (is_seen_through side) segs.now) }
{
    for seg in segs {
        mark_side(marks, seg);
    }
}

// Marks the side of a seg, if there is a sector behind it.
#[tactic(auto, unfolding(scene_rules::specs::Middles::is_seen_through))]
fn mark_side(marks: &mut Marks, seg: &Seg)
    ensures count { length marks.new ≡ length marks.old }
    ensures marked { AddsMarks marks.old marks.new (λ side. is_seen_through side seg.now) }
{
    if seg.back.is_some() {
        marks.set(seg.side as usize);
    }
}

// The least side that is marked and whose middle texture is bad.
fn first_bad(textures: &Textures, marks: &Marks, sides: &[SideTextures]) -> Option<u16>
    requires few { length sides.now < 2 ^ 16 }
    requires prepared { All (λ side. (side.middle ≡ 0) ⊎
        IsPrepared textures.now side.middle) sides.now }
    requires count { length marks.now ≡ length sides.now }
    ensures value { result ≡ least (λ side.
        is_marked marks.now side && is_bad_middle (texture_by textures.now.prepared)
        (middle_of sides.now side)) (length sides.now) }
    ensures none { result ≡ None → (side : ℕ) → side < length sides.now →
        is_marked marks.now side ≡ true → IsNoneOrSingle textures.now (middle_of sides.now side) }
{
    for (number, side) in sides.iter().enumerate() {
        if is_bad_side(textures, marks.has(number), side.middle) {
            return Some(number as u16);
        }
    }
    None
}

// Whether a side that is seen through or is not has a bad middle texture.
fn is_bad_side(textures: &Textures, is_seen_through: bool, middle: u16) -> bool
    requires { (middle ≡ 0) ⊎ IsPrepared textures.now middle }
    ensures value { result ≡ (is_seen_through && is_bad_middle (texture_by textures.now.prepared)
        middle) }
    ensures single { is_seen_through ≡ true → result ≡ false →
        IsNoneOrSingle textures.now middle }
{
    is_seen_through && is_bad_middle(textures, middle)
}

// Whether a middle texture is not number 0, and has a column without exactly one patch.
#[tactic(auto, unfolding(scene_rules::specs::Middles::is_bad_middle))]
fn is_bad_middle(textures: &Textures, middle: u16) -> bool
    requires { (middle ≡ 0) ⊎ IsPrepared textures.now middle }
    ensures value { result ≡ is_bad_middle (texture_by textures.now.prepared) middle }
    ensures single { result ≡ false → IsNoneOrSingle textures.now middle }
{
    if middle == 0 {
        return false;
    }
    !is_all_single(textures, TexNo(middle))
}

// Whether exactly one patch stands in each column of a prepared texture that a texture column can
// stand for.
#[tactic(auto, unfolding(scene_rules::specs::Middles::is_all_single))]
fn is_all_single(textures: &Textures, tex: TexNo) -> bool
    requires { IsPrepared textures.now tex.0 }
    ensures value { result ≡ is_all_single (prepared_texture textures.now tex.0) }
    ensures columns { result ≡ true → AllColumnsSingle (prepared_texture textures.now tex.0) }
{
    let last = textures.last_column(tex);
    for col in 0..=last {
        if !textures.single(tex, col) {
            return false;
        }
    }
    true
}
