// The lists of textures, read through the cache: PNAMES, TEXTURE1 and TEXTURE2, each fetched and
// then judged, and of no list more than its textures kept.
ghost use Rattle.art_rules.specs.Words.{both_lists, itself, last_of, lump_bytes, named_bytes, patch_names};
ghost use Rattle.std.specs.Prelude.{◌≡◌, ◌<◌, ◌≤◌, ◌+◌, ℕ, List, length, Ok, IfOk, IfSome, OnOk};
ghost use Rattle.lump_cache.specs.Zones.{IsLive};
ghost use Rattle.lump_cache.specs.Caches.{lump_owner};
ghost use Rattle.lump_cache.specs.Calls.{HoldContents, ReadsLumps};
ghost use Rattle.lump_cache.specs.Named.{IsLast, live_bytes};
ghost use Rattle.lump_cache.specs.Sizes.{StandsBeside};
ghost use Rattle.texture_lists.specs.Asked.{IsTextureLump, lump_number};
ghost use Rattle.texture_lists.specs.Parts.{first_part, second_part};

use crate::TexFault;
use crate::lists::{ReadList, first_part, second_part};
use crate::names::patch_names;
use crate::records::ListedTexture;
use art_rules::{MAX_TEXTURES, Name8, PNAMES, Shelf, TEXTURE1, TEXTURE2};
use lump_cache::{CacheFault, Directory, LumpCache, LumpNo, fetch_named, live_bytes};
use std::alloc::Global;

// Makes the last lump of a name live, as `fetch_named`, with the faults of textures.
fn fetch_list<S: Shelf>(
    cache: &mut LumpCache,
    dir: &Directory,
    shelf: &mut S,
    name: &Name8,
) -> Result<Option<LumpNo>, TexFault>
    requires slots { length dir.now.lumps ≤ cache.old.lumps }
    ensures tells { ReadsLumps itself (S.view shelf.old) (S.view shelf.new) dir.now cache.old
        cache.new
        (IsLast dir.now.lumps name.now) lump_number (λ bytes. Ok (last_of dir.now.lumps name.now))
        result }
    ensures last { IfOk result (λ lump. lump_number lump ≡ last_of dir.now.lumps name.now) }
    ensures there { IfOk result (λ lump. IfSome lump (λ l. l.0 < length dir.now.lumps)) }
    ensures live { IfOk result (λ lump. IfSome lump (λ l. IsLive cache.new (lump_owner l.0))) }
    ensures bytes { (contents : List (List ℕ)) →
        HoldContents (S.view shelf.old) dir.now cache.old contents →
        IfOk result (λ lump. live_bytes lump cache.new
        ≡ named_bytes (lump_bytes contents dir.now.lumps) dir.now.lumps name.now) }
{
    fetch_named(cache, dir, shelf, name).map_err(CacheFault::above)
}

// The names of patches.
pub(crate) fn load_names<S: Shelf>(
    alloc: Global,
    dir: &Directory,
    cache: &mut LumpCache,
    shelf: &mut S,
) -> Result<Vec<Name8>, TexFault>
    requires slots { length dir.now.lumps ≤ cache.old.lumps }
    ensures tells { ReadsLumps itself (S.view shelf.old) (S.view shelf.new) dir.now cache.old
        cache.new (IsLast dir.now.lumps PNAMES) (λ names. names.items)
        (λ bytes. patch_names (named_bytes bytes dir.now.lumps PNAMES)) result }
    ensures fits { OnOk result ((lump : ℕ) → IsLast dir.now.lumps PNAMES lump →
        StandsBeside dir.now.lumps cache.old lump) }
{
    let lump = fetch_list(cache, dir, shelf, &Name8::from_bytes(PNAMES))?;
    patch_names(alloc, live_bytes(cache, lump))
}

// What is kept of the first list.
fn load_first<S: Shelf>(
    alloc: Global,
    dir: &Directory,
    cache: &mut LumpCache,
    shelf: &mut S,
) -> Result<ReadList, TexFault>
    requires slots { length dir.now.lumps ≤ cache.old.lumps }
    ensures tells { ReadsLumps itself (S.view shelf.old) (S.view shelf.new) dir.now cache.old
        cache.new (IsLast dir.now.lumps TEXTURE1) (λ part. part)
        (λ bytes. first_part (named_bytes bytes dir.now.lumps TEXTURE1)) result }
    ensures fits { OnOk result ((lump : ℕ) → IsLast dir.now.lumps TEXTURE1 lump →
        StandsBeside dir.now.lumps cache.old lump) }
    ensures few { IfOk result (λ part. part.count ≤ MAX_TEXTURES) }
    ensures count { IfOk result (λ part. length part.textures ≤ part.count) }
{
    let lump = fetch_list(cache, dir, shelf, &Name8::from_bytes(TEXTURE1))?;
    first_part(alloc, live_bytes(cache, lump))
}

// What is kept of the second list, which follows `before` textures.
fn load_second<S: Shelf>(
    alloc: Global,
    before: u32,
    dir: &Directory,
    cache: &mut LumpCache,
    shelf: &mut S,
) -> Result<ReadList, TexFault>
    requires slots { length dir.now.lumps ≤ cache.old.lumps }
    requires before { before ≤ MAX_TEXTURES }
    ensures tells { ReadsLumps itself (S.view shelf.old) (S.view shelf.new) dir.now cache.old
        cache.new (IsLast dir.now.lumps TEXTURE2) (λ part. part)
        (λ bytes. second_part before (named_bytes bytes dir.now.lumps TEXTURE2)) result }
    ensures fits { OnOk result ((lump : ℕ) → IsLast dir.now.lumps TEXTURE2 lump →
        StandsBeside dir.now.lumps cache.old lump) }
    ensures few { IfOk result (λ part. before + part.count ≤ MAX_TEXTURES) }
    ensures count { IfOk result (λ part. length part.textures ≤ part.count) }
{
    let lump = fetch_list(cache, dir, shelf, &Name8::from_bytes(TEXTURE2))?;
    second_part(alloc, before, live_bytes(cache, lump))
}

// The textures of both lists.
pub(crate) fn load_both<S: Shelf>(
    alloc: Global,
    dir: &Directory,
    cache: &mut LumpCache,
    shelf: &mut S,
) -> Result<Vec<ListedTexture>, TexFault>
    requires slots { length dir.now.lumps ≤ cache.old.lumps }
    ensures tells { ReadsLumps itself (S.view shelf.old) (S.view shelf.new) dir.now cache.old
        cache.new (IsTextureLump dir.now.lumps) (λ textures. textures.items)
        (λ bytes. both_lists (named_bytes bytes dir.now.lumps TEXTURE1)
        (named_bytes bytes dir.now.lumps TEXTURE2)) result }
    ensures fits { OnOk result ((lump : ℕ) → IsTextureLump dir.now.lumps lump →
        StandsBeside dir.now.lumps cache.old lump) }
    ensures few { IfOk result (λ textures. length textures.items ≤ MAX_TEXTURES) }
{
    let first = load_first(alloc, dir, cache, shelf)?;
    let second = load_second(alloc, first.count(), dir, cache, shelf)?;
    first.joined(second)
}
