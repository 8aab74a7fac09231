// The lumps of the patches of prepared textures.
//
// Rules: `art_rules`, Wanted.
ghost use Rattle.std.specs.Prelude.{◌≡◌, ◌<◌, ◌==◌, ◌||◌, ◌^◌, false, true, ℕ, length, filter, map, IfOk, slice_index_or, slice_set};
ghost use Rattle.std.specs.List.{list_any, range_with_len};
ghost use Rattle.art_rules.specs.Words.{is_patch_of, is_patch_of_any, patch_lumps};

use crate::prepared::PreparedTexture;
use art_rules::{MAX_LUMPS, OutOfMemory, PlacedPatch};
use lump_cache::LumpNo;
use std::alloc::Global;

// The lumps of the patches of these textures, ascending and each once. Each patch is looked at
// once.
pub(crate) fn list_lumps(
    alloc: Global,
    textures: &[Option<PreparedTexture>],
) -> Result<Vec<LumpNo>, OutOfMemory>
    ensures { IfOk result (λ lumps. map (λ lump. lump.0) lumps.items
        ≡ patch_lumps textures.now MAX_LUMPS) }
{
    let mut marks = no_marks(alloc, MAX_LUMPS as usize)?;
    mark_textures(&mut marks, textures);
    marked_lumps(alloc, &marks)
}

// `count` marks, none set.
pub(crate) fn no_marks(alloc: Global, count: usize) -> Result<Vec<bool>, OutOfMemory>
    ensures count { IfOk result (λ marks. length marks.items ≡ count) }
    ensures none { IfOk result (λ marks. (k : ℕ) → slice_index_or marks.items k false ≡ false) }
{
    vec![in alloc; false; count]
}

// Sets a mark, where there is one of that number.
pub(crate) fn set_mark(marks: &mut [bool], number: u16)
    ensures { marks.new ≡ slice_set marks.old number true }
{
    if (number as usize) < marks.len() {
        marks[number as usize] = true;
    }
}

// Marks the lumps of the patches of these textures.
#[tactic(auto, unfolding(art_rules::specs::Wanted::is_patch_of_any))]
fn mark_textures(marks: &mut [bool], textures: &[Option<PreparedTexture>])
    ensures count { length marks.new ≡ length marks.old }
    ensures marked { (lump : ℕ) → lump < length marks.old →
        slice_index_or marks.new lump false
        ≡ (slice_index_or marks.old lump false || is_patch_of_any textures.now lump) }
{
    for texture in textures {
        mark_texture(marks, texture);
    }
}

#[tactic(auto, unfolding(art_rules::specs::Wanted::is_patch_of))]
fn mark_texture(marks: &mut [bool], texture: &Option<PreparedTexture>)
    ensures count { length marks.new ≡ length marks.old }
    ensures marked { (lump : ℕ) → lump < length marks.old →
        slice_index_or marks.new lump false
        ≡ (slice_index_or marks.old lump false || is_patch_of lump texture.now) }
{
    if let Some(texture) = texture {
        mark_patches(marks, texture.patches());
    }
}

fn mark_patches(marks: &mut [bool], patches: &[PlacedPatch])
    ensures count { length marks.new ≡ length marks.old }
    ensures marked { (lump : ℕ) → lump < length marks.old →
        slice_index_or marks.new lump false
        ≡ (slice_index_or marks.old lump false
        || list_any (λ patch. patch.lump == lump) patches.now) }
{
    for patch in patches {
        set_mark(marks, patch.lump);
    }
}

// The numbers that are marked, ascending.
fn marked_lumps(alloc: Global, marks: &[bool]) -> Result<Vec<LumpNo>, OutOfMemory>
    requires { length marks.now < 2 ^ 16 }
    ensures { IfOk result (λ lumps. map (λ lump. lump.0) lumps.items
        ≡ filter (λ k. slice_index_or marks.now k false)
        (range_with_len 0 (length marks.now))) }
{
    let mut lumps = Vec::new(alloc);
    for (number, marked) in marks.iter().enumerate() {
        if *marked {
            lumps.push(LumpNo(number as u16))?;
        }
    }
    Ok(lumps)
}
