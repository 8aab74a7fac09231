// The patches of a texture, placed one after the other.
//
// Rules: `art_rules`, Wanted, and `specs/Parts`. The original: `R_InitTextures`,
// `R_GenerateLookup`, r_data.c.
ghost use Rattle.texture_build.specs.Rules.{MissingPatch, PlacedPatch, Refused, itself, last_of, patch_of, place_lump, place_patch, placed_patch, placed_patches};
ghost use Rattle.std.specs.Prelude.{◌≡◌, ◌<◌, ◌≤◌, ◌^◌, ◌++◌, ◌∷◌, ℕ, [], List, All, length, option_map, option_and_then, Some, Ok, IfOk, IfSome, OnOk};
ghost use Rattle.lump_cache.specs.Zones.{bytes_of};
ghost use Rattle.lump_cache.specs.Caches.{lump_owner};
ghost use Rattle.lump_cache.specs.Calls.{ReadsLumps};
ghost use Rattle.patch_columns.specs.Seen.{AreSeen, columns_with, seen_lookups};
ghost use Rattle.texture_build.specs.Asked.{patch_lump};
ghost use Rattle.texture_build.specs.Parts.{IsEntryPatch, or_missing, patches_part, step_of};

use art_rules::{ColumnLookup, Patch, PlacedPatch, Shelf, TexRefusal, TextureEntry};
use lump_cache::{Directory, LumpCache, LumpNo, fetch_live};
use patch_columns::add_patch;
use texture_lists::{ListedTextures, TexFault, TexNo};

// Places these patches of a texture, in order, where none is there yet.
pub(crate) fn place_patches<S: Shelf>(
    patches: &mut Vec<PlacedPatch>,
    columns: &mut [ColumnLookup],
    tex: TexNo,
    entries: &[TextureEntry],
    lists: &ListedTextures,
    dir: &Directory,
    cache: &mut LumpCache,
    shelf: &mut S,
) -> Result<(), TexFault>
    requires slots { length dir.now.lumps ≤ cache.old.lumps }
    requires width { length columns.old < 2 ^ 16 }
    requires none { patches.old.items ≡ [] }
    requires empty { (bytes : ℕ → List ℕ) →
        columns.old ≡ seen_lookups bytes [] (length columns.old) }
    ensures tells { ReadsLumps itself (S.view shelf.old) (S.view shelf.new) dir.now cache.old
        cache.new (IsEntryPatch dir.now.lumps lists.now.names entries.now)
        (λ _. record { patches = patches.new.items; columns = columns.new })
        (λ bytes. or_missing tex.0
        (option_map (patches_part bytes (length columns.old))
        (placed_patches (last_of dir.now.lumps) bytes lists.now.names entries.now)))
        result }
    ensures seen { OnOk result (AreSeen patches.new.items columns.new) }
    ensures there { OnOk result (All (λ patch. patch.lump < length dir.now.lumps)
        patches.new.items) }
    ensures count { length columns.new ≡ length columns.old }
{
    for entry in entries {
        let patch = place_entry(tex, entry, columns, lists, dir, cache, shelf)?;
        patches.push(patch)?;
    }
    Ok(())
}

// Places one patch, behind those that were placed before.
fn place_entry<S: Shelf>(
    tex: TexNo,
    entry: &TextureEntry,
    columns: &mut [ColumnLookup],
    lists: &ListedTextures,
    dir: &Directory,
    cache: &mut LumpCache,
    shelf: &mut S,
) -> Result<PlacedPatch, TexFault>
    requires slots { length dir.now.lumps ≤ cache.old.lumps }
    requires width { length columns.old < 2 ^ 16 }
    ensures tells { ReadsLumps itself (S.view shelf.old) (S.view shelf.new) dir.now cache.old
        cache.new (λ lump. patch_lump dir.now.lumps lists.now.names entry.now ≡ Some lump)
        (λ patch. record { patch = patch; columns = columns.new })
        (λ bytes. or_missing tex.0
        (option_map (step_of bytes columns.old)
        (placed_patch (last_of dir.now.lumps) bytes lists.now.names entry.now))) result }
    ensures seen { (patches : List PlacedPatch) → AreSeen patches columns.old →
        IfOk result (λ patch. AreSeen (patches ++ patch ∷ []) columns.new) }
    ensures there { IfOk result (λ patch. patch.lump < length dir.now.lumps) }
    ensures count { length columns.new ≡ length columns.old }
{
    match patch_lump(entry, lists, dir) {
        Some(lump) => place_lump(tex, entry, lump, columns, dir, cache, shelf),
        None => Err(missing_patch(tex)),
    }
}

// The last lump of a patch's name; `None` exactly where its number is none of the names of patches,
// or no lump has the name.
fn patch_lump(entry: &TextureEntry, lists: &ListedTextures, dir: &Directory) -> Option<LumpNo>
    ensures found { option_map (λ lump. lump.0) result
        ≡ patch_lump dir.now.lumps lists.now.names entry.now }
    ensures there { IfSome result (λ lump. lump.0 < length dir.now.lumps) }
{
    match lists.patch_name(entry.number) {
        Some(name) => dir.last(&name),
        None => None,
    }
}

// Places a patch whose lump is known. It is fetched once.
fn place_lump<S: Shelf>(
    tex: TexNo,
    entry: &TextureEntry,
    lump: LumpNo,
    columns: &mut [ColumnLookup],
    dir: &Directory,
    cache: &mut LumpCache,
    shelf: &mut S,
) -> Result<PlacedPatch, TexFault>
    requires slots { length dir.now.lumps ≤ cache.old.lumps }
    requires listed { lump.0 < length dir.now.lumps }
    requires width { length columns.old < 2 ^ 16 }
    ensures tells { ReadsLumps itself (S.view shelf.old) (S.view shelf.new) dir.now cache.old
        cache.new (λ number. number ≡ lump.0)
        (λ patch. record { patch = patch; columns = columns.new })
        (λ bytes. or_missing tex.0
        (option_map (step_of bytes columns.old) (place_lump bytes entry.now lump.0))) result }
    ensures seen { (patches : List PlacedPatch) → AreSeen patches columns.old →
        IfOk result (λ patch. AreSeen (patches ++ patch ∷ []) columns.new) }
    ensures lump { IfOk result (λ patch. patch.lump ≡ lump.0) }
    ensures count { length columns.new ≡ length columns.old }
{
    fetch_live::<S, TexRefusal>(cache, dir, shelf, lump)?;
    match place_live(entry, lump, columns, cache) {
        Some(patch) => Ok(patch),
        None => Err(missing_patch(tex)),
    }
}

// Places a patch whose lump is live; `None` exactly where it is not live or no patch.
fn place_live(
    entry: &TextureEntry,
    lump: LumpNo,
    columns: &mut [ColumnLookup],
    cache: &LumpCache,
) -> Option<PlacedPatch>
    requires slots { lump.0 < cache.now.lumps }
    requires width { length columns.old < 2 ^ 16 }
    ensures value { result ≡ option_and_then
        (λ bytes. option_map (place_patch entry.now lump.0) (patch_of bytes))
        (bytes_of (lump_owner lump.0) cache.now.blocks) }
    ensures columns { IfSome result
        (λ patch. IfSome (bytes_of (lump_owner lump.0) cache.now.blocks)
        (λ bytes. columns.new ≡ columns_with bytes patch columns.old)) }
    ensures seen { (patches : List PlacedPatch) → AreSeen patches columns.old →
        IfSome result (λ patch. AreSeen (patches ++ patch ∷ []) columns.new) }
    ensures count { length columns.new ≡ length columns.old }
{
    match cache.bytes(lump) {
        Some(bytes) => place_bytes(entry, lump, columns, bytes),
        None => None,
    }
}

// Places a patch whose lump has these bytes; `None` exactly where they are no patch.
fn place_bytes(
    entry: &TextureEntry,
    lump: LumpNo,
    columns: &mut [ColumnLookup],
    bytes: &[u8],
) -> Option<PlacedPatch>
    requires { length columns.old < 2 ^ 16 }
    ensures value { result ≡ option_map (place_patch entry.now lump.0) (patch_of bytes.now) }
    ensures columns { IfSome result
        (λ patch. columns.new ≡ columns_with bytes.now patch columns.old) }
    ensures seen { (patches : List PlacedPatch) → AreSeen patches columns.old →
        IfSome result (λ patch. AreSeen (patches ++ patch ∷ []) columns.new) }
    ensures count { length columns.new ≡ length columns.old }
{
    let patch = Patch::read(bytes)?;
    let placed = place_patch(entry, lump, &patch);
    add_patch(columns, bytes, &placed);
    Some(placed)
}

#[tactic(auto, unfolding(art_rules::specs::Wanted::place_patch))]
fn place_patch(entry: &TextureEntry, lump: LumpNo, patch: &Patch) -> PlacedPatch
    ensures { result ≡ place_patch entry.now lump.0 patch.now }
{
    PlacedPatch {
        lump: lump.0,
        x: entry.x,
        y: entry.y,
        width: patch.width,
    }
}

// A patch of the texture is missing.
pub(crate) fn missing_patch(tex: TexNo) -> TexFault
    ensures { result ≡ Refused (MissingPatch tex.0) }
{
    TexFault::Refused(TexRefusal::MissingPatch {
        texture: u64::from(tex.0),
    })
}
