// The composite of a texture, built in the zone.
//
// Rules: `specs/Builds`, over `art_rules`, Lookups. The original: `R_GenerateComposite`, r_data.c.
ghost use Rattle.std.specs.Prelude.{◌≡◌, ◌<◌, ◌≤◌, ◌+◌, ℕ, Contains, length, replicate, Ok, Some, slice_get, MatchResult, IsNone};
ghost use Rattle.lump_cache.specs.Zones.{IsLive, holding_of};
ghost use Rattle.lump_cache.specs.Caches.{IsFilled, composite_owner, lump_owner};
ghost use Rattle.art_rules.specs.declared.ColumnLookup.TheVariants.{Composed};
ghost use Rattle.texture_build.specs.Asked.{size_of};
ghost use Rattle.texture_build.specs.Builds.{StartsComposite, EndsComposite, FailsToBegin, IsBuilding, PutsPatch, PutsPatches};
ghost use Rattle.texture_build.specs.Ready.{MakesColumnLive};
ghost use Rattle.texture_build.specs.Views.{ArePatchesThere};

use crate::prepared::PreparedTexture;
use art_rules::{PlacedPatch, Shelf};
use lump_cache::{CacheFault, Directory, LumpCache, LumpNo, Tag, ZoneFull};
use patch_columns::put_patch;

// Builds the composite of a texture, whose slot is empty: its block is taken and pinned, each of
// its bytes set to 0, and each patch is fetched, put and released. Then it is made purgeable, or
// after a fault dropped. So at most one lump is pinned beside it, and beside the colormap. Takes
// no memory.
//
// Errors: `ZoneFull` where no gap of the zone held the block of the composite or of a patch,
// `ReadFault` where a call of the shelf failed.
pub(crate) fn build_composite<S: Shelf>(
    texture: &PreparedTexture,
    number: u32,
    dir: &Directory,
    cache: &mut LumpCache,
    shelf: &mut S,
) -> Result<(), CacheFault>
    requires slots { length dir.now.lumps ≤ cache.old.lumps }
    requires composite { number < cache.old.composites }
    requires there { ArePatchesThere dir.now.lumps texture.now }
    requires empty { IsNone (holding_of (composite_owner number) cache.old.blocks) }
    ensures { (place : ℕ) →
        MakesColumnLive number texture.now (Composed place) (S.view shelf.old) (S.view shelf.new)
        dir.now cache.old cache.new result }
{
    begin_composite(cache, number, texture.size())?;
    let built = put_patches(texture, number, dir, cache, shelf);
    end_composite(cache, number, &built);
    built
}

// Takes the block of a composite of `size` bytes, each of them 0.
fn begin_composite(cache: &mut LumpCache, number: u32, size: u32) -> Result<(), ZoneFull>
    requires in_range { number < cache.old.composites }
    requires empty { IsNone (holding_of (composite_owner number) cache.old.blocks) }
    ensures { MatchResult result (λ _. StartsComposite number size cache.old cache.new)
        (λ e. FailsToBegin number size cache.old cache.new e.wanted e.widest) }
{
    cache.take_composite(number, size)?;
    clear_composite(cache, number);
    Ok(())
}

// Sets each byte of a live composite to 0.
fn clear_composite(cache: &mut LumpCache, number: u32)
    requires in_range { number < cache.old.composites }
    requires live { IsLive cache.old (composite_owner number) }
    ensures { IsFilled (composite_owner number) cache.old cache.new
        (λ w. w ≡ replicate (length w) 0) }
{
    cache.composite_mut(number, |bytes| bytes.fill(0));
}

// Ends the building of a composite: one that was built is made purgeable, and after a fault its
// block is freed.
fn end_composite(cache: &mut LumpCache, number: u32, built: &Result<(), CacheFault>)
    requires in_range { number < cache.old.composites }
    requires live { IsLive cache.old (composite_owner number) }
    ensures { EndsComposite number cache.old cache.new built.now }
{
    match built {
        Ok(()) => cache.release_composite(number),
        Err(_) => cache.drop_composite(number),
    }
}

// Puts the patches of a texture into its composite, in order: each is fetched, put and released
// before the next.
fn put_patches<S: Shelf>(
    texture: &PreparedTexture,
    number: u32,
    dir: &Directory,
    cache: &mut LumpCache,
    shelf: &mut S,
) -> Result<(), CacheFault>
    requires slots { length dir.now.lumps ≤ cache.old.lumps }
    requires composite { number < cache.old.composites }
    requires there { ArePatchesThere dir.now.lumps texture.now }
    requires building { IsBuilding number (size_of texture.now) cache.old }
    ensures { PutsPatches number texture.now 0 (length texture.now.patches) (S.view shelf.old)
        (S.view shelf.new) dir.now cache.old cache.new result }
{
    for patch in texture.patches() {
        fetch_and_put(texture, number, patch, dir, cache, shelf)?;
    }
    Ok(())
}

// Fetches the lump of a patch, puts the patch and releases the lump.
fn fetch_and_put<S: Shelf>(
    texture: &PreparedTexture,
    number: u32,
    patch: &PlacedPatch,
    dir: &Directory,
    cache: &mut LumpCache,
    shelf: &mut S,
) -> Result<(), CacheFault>
    requires slots { length dir.now.lumps ≤ cache.old.lumps }
    requires composite { number < cache.old.composites }
    requires among { Contains texture.now.patches patch.now }
    requires there { patch.now.lump < length dir.now.lumps }
    requires building { IsBuilding number (size_of texture.now) cache.old }
    ensures { (n : ℕ) → slice_get texture.now.patches n ≡ Some patch.now →
        PutsPatches number texture.now n (n + 1) (S.view shelf.old) (S.view shelf.new) dir.now
        cache.old cache.new result }
{
    let lump = LumpNo(patch.lump);
    cache.fetch(shelf, dir, lump, Tag::Level)?;
    put_live(cache, number, texture, patch);
    cache.release(lump);
    Ok(())
}

// Puts a patch whose lump is live into its texture's composite, which is live too.
fn put_live(cache: &mut LumpCache, number: u32, texture: &PreparedTexture, patch: &PlacedPatch)
    requires lump_in_range { patch.now.lump < cache.old.lumps }
    requires in_range { number < cache.old.composites }
    requires lump_live { IsLive cache.old (lump_owner patch.now.lump) }
    requires live { IsLive cache.old (composite_owner number) }
    ensures { IsFilled (composite_owner number) cache.old cache.new
        (PutsPatch number texture.now patch.now cache.old) }
{
    let columns = texture.columns();
    let height = texture.height();
    cache.lump_and_composite(LumpNo(patch.lump), number, |lump, composite| {
        put_patch(lump, patch, columns, height, composite)
    });
}
