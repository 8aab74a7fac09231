// Lumps made live, and their bytes.
//
// Rules: `specs/Calls` and `specs/Named`. The original: w_wad.c.
ghost use Rattle.std.specs.Prelude.{◌≡◌, ◌≢◌, ◌<◌, ◌≤◌, ◌+◌, ℕ, List, length, false, Ok, Some, IfErr, IfOk, IfSome, OnOk, option_map};
ghost use Rattle.std.specs.Option.{option_copied};
ghost use Rattle.lump_cache.specs.Rules.{IsLive, OutOfMemory, block_size, bytes_of, itself, last_of, lump_bytes, named_bytes, owned_block, same_owner};
ghost use Rattle.lump_cache.specs.Caches.{HasStatic, cache_fault, lump_owner};
ghost use Rattle.lump_cache.specs.Calls.{HoldContents, ReadsLumps};
ghost use Rattle.lump_cache.specs.Lives.{GivesBytes};
ghost use Rattle.lump_cache.specs.Named.{IsLast, live_bytes};

use crate::{CacheFault, LumpCache};
use lump_rules::Name8;
use outside::{Fault, Shelf};
use wad_dir::{Directory, LumpNo};
use zone_heap::Tag;

/// Makes a lump live with the tag `Cache`, so that nothing is pinned. Takes no memory. Where each
/// live lump has the size that the directory gives, this is so after any answer too.
///
/// Errors: `ZoneFull` where no gap of the zone held the lump's block, `ReadFault` where a call of
/// the shelf failed; it refuses nothing of its own, and memory does not run out.
///
/// The original: `W_CacheLumpNum`, w_wad.c.
pub fn fetch_live<S: Shelf, R>(
    cache: &mut LumpCache,
    dir: &Directory,
    shelf: &mut S,
    lump: LumpNo,
) -> Result<(), Fault<R>>
    requires slots { length dir.now.lumps ≤ cache.old.lumps }
    requires there { lump.0 < length dir.now.lumps }
    ensures tells { ReadsLumps itself (S.view shelf.old) (S.view shelf.new) dir.now cache.old
        cache.new
        (λ number. number ≡ lump.0) (λ done. done) (λ bytes. Ok tt) result }
    ensures live { OnOk result (IsLive cache.new (lump_owner lump.0)) }
    ensures bytes { GivesBytes (S.view shelf.old) dir.now cache.old cache.new lump.0 result }
    ensures memory { IfErr result (λ fault. fault ≢ OutOfMemory) }
{
    match make_live(cache, dir, shelf, lump) {
        Ok(()) => Ok(()),
        Err(fault) => Err(fault.above()),
    }
}

// Makes a lump live, with the faults of the cache.
fn make_live<S: Shelf>(
    cache: &mut LumpCache,
    dir: &Directory,
    shelf: &mut S,
    lump: LumpNo,
) -> Result<(), CacheFault>
    requires slots { length dir.now.lumps ≤ cache.old.lumps }
    requires there { lump.0 < length dir.now.lumps }
    ensures tells { ReadsLumps cache_fault (S.view shelf.old) (S.view shelf.new) dir.now
        cache.old cache.new
        (λ number. number ≡ lump.0) (λ done. done) (λ bytes. Ok tt) result }
    ensures live { OnOk result (IsLive cache.new (lump_owner lump.0)) }
    ensures bytes { GivesBytes (S.view shelf.old) dir.now cache.old cache.new lump.0 result }
{
    cache.fetch(shelf, dir, lump, Tag::Cache)
}

/// Makes the last lump of a name live and returns its number, or `None` exactly where no lump has
/// the name. Takes no memory.
///
/// Errors: `ZoneFull` and `ReadFault`, as for `fetch_live`.
///
/// The original: `W_CacheLumpName`, w_wad.c.
pub fn fetch_named<S: Shelf>(
    cache: &mut LumpCache,
    dir: &Directory,
    shelf: &mut S,
    name: &Name8,
) -> Result<Option<LumpNo>, CacheFault>
    requires slots { length dir.now.lumps ≤ cache.old.lumps }
    ensures tells { ReadsLumps cache_fault (S.view shelf.old) (S.view shelf.new) dir.now
        cache.old cache.new
        (IsLast dir.now.lumps name.now) (λ lump. option_map (λ l. l.0) lump)
        (λ bytes. Ok (last_of dir.now.lumps name.now)) result }
    ensures found { IfOk result (λ lump.
        option_map (λ l. l.0) lump ≡ last_of dir.now.lumps name.now) }
    ensures there { IfOk result (λ lump. IfSome lump (λ l. l.0 < length dir.now.lumps)) }
    ensures live { IfOk result (λ lump. IfSome lump (λ l. IsLive cache.new (lump_owner l.0))) }
    ensures bytes { (contents : List (List ℕ)) →
        HoldContents (S.view shelf.old) dir.now cache.old contents →
        IfOk result (λ lump.
        live_bytes lump cache.new
        ≡ named_bytes (lump_bytes contents dir.now.lumps) dir.now.lumps name.now) }
{
    match dir.last(name) {
        Some(lump) => {
            make_live(cache, dir, shelf, lump)?;
            Ok(Some(lump))
        }
        None => Ok(None),
    }
}

/// The bytes of a live lump.
///
/// A zone in which the colormap is pinned for the whole run is large enough for its block and one for
/// the bytes that are lent, unless the lump is the colormap.
pub fn live_lump(cache: &LumpCache, lump: LumpNo) -> &[u8]
    requires in_range { lump.0 < cache.now.lumps }
    requires live { IsLive cache.now (lump_owner lump.0) }
    ensures value { bytes_of (lump_owner lump.0) cache.now.blocks ≡ Some result.now }
    ensures fits { (colormap count : ℕ) →
        HasStatic count (owned_block (lump_owner colormap) cache.now.blocks) →
        same_owner (lump_owner colormap) (lump_owner lump.0) ≡ false →
        block_size count + block_size (length result.now) ≤ cache.now.size }
{
    cache.bytes(lump).unwrap()
}

/// The bytes of a lump, or `None` exactly where there is no lump or it is not live.
///
/// A zone in which the colormap is pinned for the whole run is large enough for its block and one for
/// the bytes that are lent, unless the lump is the colormap.
pub fn live_bytes(cache: &LumpCache, lump: Option<LumpNo>) -> Option<&[u8]>
    requires { IfSome lump (λ l. l.0 < cache.now.lumps) }
    ensures value { option_copied result ≡ live_bytes lump cache.now }
    ensures fits { (colormap count : ℕ) →
        HasStatic count (owned_block (lump_owner colormap) cache.now.blocks) →
        IfSome lump (λ l. same_owner (lump_owner colormap) (lump_owner l.0) ≡ false) →
        IfSome (option_copied result) (λ bytes.
        block_size count + block_size (length bytes) ≤ cache.now.size) }
{
    match lump {
        Some(lump) => cache.bytes(lump),
        None => None,
    }
}
