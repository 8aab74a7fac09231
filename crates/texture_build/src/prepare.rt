// What stands behind `Textures::prepare`: the wanted textures, one after the other.
//
// Rules: `art_rules`, Wanted. The original: `R_PrecacheLevel`, `R_GenerateLookup`, r_data.c.
ghost use Rattle.texture_build.specs.Rules.{Empty, Refused, TooBig, itself, last_of, prepared, prepared_if, prepared_textures, texture_at, unless_too_big};
ghost use Rattle.std.specs.Prelude.{◌≡◌, ◌<◌, ◌≤◌, ◌^◌, ◌||◌, false, true, ℕ, List, All, length, is_some, map, replicate, slice_index_or, Ok, Err, IfErr, IfOk, IfSome, IsSome};
ghost use Rattle.lump_cache.specs.Calls.{ReadsLumps};
ghost use Rattle.patch_columns.specs.Seen.{AreSeen, seen_lookups};
ghost use Rattle.texture_build.specs.Asked.{IsWantedPatch};
ghost use Rattle.texture_build.specs.Parts.{IsEntryPatch};
ghost use Rattle.texture_build.specs.Views.{ArePatchesThere, IsListedAs, is_marked, is_wanted, prepared_at};

use crate::lumps::{no_marks, set_mark};
use crate::place::place_patches;
use crate::prepared::PreparedTexture;
use crate::prepared_list::PreparedList;
use art_rules::{ColumnLookup, OutOfMemory, PlacedPatch, Shelf, TexRefusal};
use lump_cache::{Directory, LumpCache};
use std::alloc::Global;
use texture_lists::{ListedTextures, TexFault, TexNo};

// The wanted textures of the lists, prepared.
pub(crate) fn prepare_wanted<S: Shelf>(
    alloc: Global,
    wanted: &[TexNo],
    lists: &ListedTextures,
    dir: &Directory,
    cache: &mut LumpCache,
    shelf: &mut S,
) -> Result<PreparedList, TexFault>
    requires slots { length dir.now.lumps ≤ cache.old.lumps }
    requires below { All (λ tex. tex.0 < length lists.now.textures) wanted.now }
    ensures tells { ReadsLumps itself (S.view shelf.old) (S.view shelf.new) dir.now cache.old
        cache.new (IsWantedPatch dir.now.lumps lists.now (is_wanted wanted.now))
        (λ textures. textures)
        (λ bytes. prepared_textures (last_of dir.now.lumps) bytes lists.now (is_wanted wanted.now))
        result }
    ensures there { IfOk result (λ textures. All (λ t. IfSome t (ArePatchesThere dir.now.lumps))
        textures) }
    ensures listed { IfOk result (λ textures. (number : ℕ) →
        IfSome (prepared_at textures number)
        (IsListedAs (texture_at lists.now.textures number))) }
    ensures wanted { IfOk result (λ textures. All (λ tex. IsSome (prepared_at textures tex.0))
        wanted.now) }
    ensures count { IfOk result (λ textures. length textures ≡ length lists.now.textures) }
{
    let marks = mark_wanted(alloc, lists.count(), wanted)?;
    let textures = prepare_marked(alloc, &marks, lists, dir, cache, shelf)?;
    Ok(PreparedList::new(alloc, textures)?)
}

// `count` marks, of which those of the wanted textures are set.
fn mark_wanted(alloc: Global, count: u32, wanted: &[TexNo]) -> Result<Vec<bool>, OutOfMemory>
    requires { All (λ tex. tex.0 < count) wanted.now }
    ensures count { IfOk result (λ marks. length marks.items ≡ count) }
    ensures marked { IfOk result (λ marks. (number : ℕ) →
        is_marked marks.items number ≡ is_wanted wanted.now number) }
{
    let mut marks = no_marks(alloc, count as usize)?;
    set_marks(&mut marks, wanted);
    Ok(marks)
}

fn set_marks(marks: &mut [bool], wanted: &[TexNo])
    ensures count { length marks.new ≡ length marks.old }
    ensures marked { (number : ℕ) → number < length marks.old →
        slice_index_or marks.new number false
        ≡ (slice_index_or marks.old number false || is_wanted wanted.now number) }
{
    for tex in wanted {
        set_mark(marks, tex.0);
    }
}

// The marked textures of the lists, prepared in the order of their numbers.
fn prepare_marked<S: Shelf>(
    alloc: Global,
    marks: &[bool],
    lists: &ListedTextures,
    dir: &Directory,
    cache: &mut LumpCache,
    shelf: &mut S,
) -> Result<Vec<Option<PreparedTexture>>, TexFault>
    requires slots { length dir.now.lumps ≤ cache.old.lumps }
    requires count { length marks.now ≡ length lists.now.textures }
    requires few { length marks.now < 2 ^ 16 }
    ensures tells { ReadsLumps itself (S.view shelf.old) (S.view shelf.new) dir.now cache.old
        cache.new (IsWantedPatch dir.now.lumps lists.now (is_marked marks.now))
        (λ textures. textures.items)
        (λ bytes. prepared_textures (last_of dir.now.lumps) bytes lists.now (is_marked marks.now))
        result }
    ensures there { IfOk result (λ textures. All (λ t. IfSome t (ArePatchesThere dir.now.lumps))
        textures.items) }
    ensures listed { IfOk result (λ textures. (number : ℕ) →
        IfSome (prepared_at textures.items number)
        (IsListedAs (texture_at lists.now.textures number))) }
    ensures marks { IfOk result (λ textures. map is_some textures.items ≡ marks.now) }
{
    let mut textures = Vec::new(alloc);
    for (number, wanted) in marks.iter().enumerate() {
        let tex = TexNo(number as u16);
        let texture = prepare_if(alloc, *wanted, tex, lists, dir, cache, shelf)?;
        textures.push(texture)?;
    }
    Ok(textures)
}

// A texture, prepared if it is wanted.
fn prepare_if<S: Shelf>(
    alloc: Global,
    wanted: bool,
    tex: TexNo,
    lists: &ListedTextures,
    dir: &Directory,
    cache: &mut LumpCache,
    shelf: &mut S,
) -> Result<Option<PreparedTexture>, TexFault>
    requires slots { length dir.now.lumps ≤ cache.old.lumps }
    requires below { tex.0 < length lists.now.textures }
    ensures tells { ReadsLumps itself (S.view shelf.old) (S.view shelf.new) dir.now cache.old
        cache.new (λ lump. (wanted ≡ true) ×
        IsEntryPatch dir.now.lumps lists.now.names (texture_at lists.now.textures tex.0).patches
        lump) (λ texture. texture)
        (λ bytes. prepared_if wanted
        (prepared (last_of dir.now.lumps) bytes lists.now.names tex.0
        (texture_at lists.now.textures tex.0))) result }
    ensures there { IfOk result (λ texture. IfSome texture (ArePatchesThere dir.now.lumps)) }
    ensures listed { IfOk result (λ texture. IfSome texture
        (IsListedAs (texture_at lists.now.textures tex.0))) }
    ensures wanted { IfOk result (λ texture. is_some texture ≡ wanted) }
{
    if wanted {
        Ok(Some(prepare_texture(alloc, lists, tex, dir, cache, shelf)?))
    } else {
        Ok(None)
    }
}

// A texture of the lists, prepared.
fn prepare_texture<S: Shelf>(
    alloc: Global,
    lists: &ListedTextures,
    tex: TexNo,
    dir: &Directory,
    cache: &mut LumpCache,
    shelf: &mut S,
) -> Result<PreparedTexture, TexFault>
    requires slots { length dir.now.lumps ≤ cache.old.lumps }
    requires below { tex.0 < length lists.now.textures }
    ensures tells { ReadsLumps itself (S.view shelf.old) (S.view shelf.new) dir.now cache.old
        cache.new (IsEntryPatch dir.now.lumps lists.now.names
        (texture_at lists.now.textures tex.0).patches) (λ texture. texture)
        (λ bytes. prepared (last_of dir.now.lumps) bytes lists.now.names tex.0
        (texture_at lists.now.textures tex.0)) result }
    ensures there { IfOk result (ArePatchesThere dir.now.lumps) }
    ensures listed { IfOk result (IsListedAs (texture_at lists.now.textures tex.0)) }
{
    let mut patches = Vec::new(alloc);
    let mut columns = empty_columns(alloc, lists.width(tex))?;
    let entries = lists.entries(tex);
    place_patches(
        &mut patches,
        &mut columns,
        tex,
        entries,
        lists,
        dir,
        cache,
        shelf,
    )?;
    bind_texture(tex, lists, patches, columns)
}

// `width` columns in which no patch stands.
fn empty_columns(alloc: Global, width: u16) -> Result<Vec<ColumnLookup>, OutOfMemory>
    ensures { IfOk result (λ columns. columns.items ≡ replicate width Empty) }
{
    vec![in alloc; ColumnLookup::Empty; width as usize]
}

// The texture once its patches are placed, unless its composite is too big.
fn bind_texture(
    tex: TexNo,
    lists: &ListedTextures,
    patches: Vec<PlacedPatch>,
    columns: Vec<ColumnLookup>,
) -> Result<PreparedTexture, TexFault>
    requires below { tex.0 < length lists.now.textures }
    requires width { length columns.items ≡ (texture_at lists.now.textures tex.0).width }
    requires some { 0 < length columns.items }
    requires few { length columns.items < 2 ^ 16 }
    requires seen { AreSeen patches.items columns.items }
    ensures ok { (bytes : ℕ → List ℕ) →
        columns.items ≡ seen_lookups bytes patches.items (length columns.items) →
        IfOk result (λ texture. unless_too_big bytes tex.0 (texture_at lists.now.textures tex.0)
        patches.items ≡ Ok texture) }
    ensures err { IfErr result (λ fault. (fault ≡ Refused (TooBig tex.0))
        × ((bytes : ℕ → List ℕ) →
        unless_too_big bytes tex.0 (texture_at lists.now.textures tex.0) patches.items
        ≡ Err (TooBig tex.0))) }
    ensures patches { IfOk result (λ texture. texture.patches ≡ patches.items) }
    ensures listed { IfOk result (IsListedAs (texture_at lists.now.textures tex.0)) }
{
    match PreparedTexture::new(patches, columns, lists.height(tex), lists.mask(tex)) {
        Some(texture) => Ok(texture),
        None => Err(TexFault::Refused(TexRefusal::TooBig {
            texture: u64::from(tex.0),
        })),
    }
}
