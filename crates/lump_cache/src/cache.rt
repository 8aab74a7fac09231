// The cache and its calls.
//
// Rules: `specs/Caches` and `specs/Fetches`, over `zone_rules`. The laws that follow from the
// clauses of a call are in `proofs`: FetchLemmas, TakeLemmas, ReleaseLemmas, WriteLemmas and
// DropLemmas. The original: w_wad.c.
ghost use Rattle.std.specs.Prelude.{◌≡◌, ◌<◌, ◌≤◌, ◌+◌, ◌↔◌, ℕ, List, length, true, false, Err, None, All, IfOk, IfSome, IsErr, OnOk, IsNone, ⊤};
ghost use Rattle.std.specs.Option.{option_copied};
ghost use Rattle.zone_heap.specs.Calls.{BytesChanged, PairCalled};
ghost use Rattle.lump_cache.specs.Rules.{AreRoomy, Cache, Heap, IsInOrder, IsLive, IsSound, IsZoneSize, Item, KeepsOrder, Level, Lump, NameFiles, Owner, block_size, bytes_of, fresh_heap, gaps, has_item, holding_of, lump_at, owned_block, same_owner, total, without_block};
ghost use Rattle.lump_cache.specs.Caches.{lump_owner, composite_owner, release_heap, MatchAnswer, IsFaithful, IsAtRest, IsEmpty, IsPinned, KeepsCounts, HasStatic};
ghost use Rattle.lump_cache.specs.Fetches.{FetchesLump, RequestsBlock};

use crate::fault::CacheFault;
use crate::fetching::fetch_lump;
use crate::read::lump_slot;
use crate::tags::release_block;
use outside::Shelf;
use std::alloc::Global;
use std::marker::Model;
use wad_dir::{Directory, LumpNo};
use zone_heap::{CompositeKind, Slot, Tag, Zone, ZoneFull, ZoneMake};
use zone_rules::SLOT_LIMIT;

/// The slot of a composite.
fn composite_slot(number: u32) -> Slot<CompositeKind>
    ensures { result.number ≡ number }
{
    Slot::new(number)
}

/// Lumps and composites in the blocks of a zone. Contracts see the zone.
pub struct LumpCache {
    zone: Zone,
}

// By hand, so that a drop of one is one call.
impl Drop for LumpCache {
    fn drop(self) {
        let LumpCache { zone: _ } = self;
    }
}

impl Model for LumpCache {
    ghost use Rattle.zone_rules.specs.Zones.{Owner, Heap, IsSound};

    ghost Value = { Heap };

    ghost view = { λ cache. cache.zone };

    ghost invariant = { λ cache. IsSound cache.zone };
}

impl LumpCache {
    /// A cache over a zone of `size` bytes, with a slot for each lump of the directory and
    /// `composites` slots for composites. No slot is live. The cache is in order for each list of
    /// items that the zone has room for.
    ///
    /// Errors: `BadSize` exactly where the zone's size is refused; it comes first. `OutOfMemory`.
    pub fn new(
        alloc: Global,
        dir: &Directory,
        size: u32,
        composites: u32,
    ) -> Result<LumpCache, ZoneMake>
        requires listed { length dir.now.lumps < SLOT_LIMIT }
        requires composites { composites < SLOT_LIMIT }
        ensures bad { (result ≡ Err ZoneMake.BadSize) ↔ (¬ IsZoneSize size) }
        ensures fresh { IfOk result (λ cache.
            cache ≡ fresh_heap size (length dir.now.lumps) composites) }
        ensures empty { IfOk result IsEmpty }
        ensures faithful { (contents : List (List ℕ)) (lumps : List Lump) →
            IfOk result (IsFaithful contents lumps) }
        ensures order { (items : List Item) → AreRoomy size items → IfOk result (IsInOrder items) }
    {
        match Zone::new(alloc, size, dir.count(), composites) {
            Ok(zone) => Ok(LumpCache { zone }),
            Err(fault) => Err(fault),
        }
    }

    /// The zone under the cache.
    pub fn zone(&self) -> &Zone
        ensures { result.now ≡ self.now }
    {
        &self.zone
    }

    /// The bytes of a lump, or None exactly where it is not live.
    ///
    /// A zone in which the colormap is pinned for the whole run is large enough for its block and one
    /// for the bytes that are lent, unless the lump is the colormap.
    #[inline(always)]
    pub fn bytes(&self, lump: LumpNo) -> Option<&[u8]>
        requires { lump.0 < self.now.lumps }
        ensures value { option_copied result ≡ bytes_of (lump_owner lump.0) self.now.blocks }
        ensures fits { (colormap count : ℕ) →
            HasStatic count (owned_block (lump_owner colormap) self.now.blocks) →
            same_owner (lump_owner colormap) (lump_owner lump.0) ≡ false →
            IfSome (option_copied result) (λ bytes.
            block_size count + block_size (length bytes) ≤ self.now.size) }
    {
        self.zone.bytes(lump_slot(lump))
    }

    /// Makes a lump live. A live slot keeps its block, of which only the tag changes, unless it is
    /// `Static`. For an empty slot a block of the lump's size is taken and the lump is read into
    /// it. Takes no memory.
    ///
    /// Errors: `ZoneFull` exactly where the slot is empty and no gap holds the block. `ReadFault`
    /// only where the shelf's count of faults rose, and never over a steady shelf with the files
    /// that the directory was loaded from. After either error the slot is empty, and every pinned
    /// block stands.
    ///
    /// A zone that was full is small, for its widest gap, which is reported, is narrower than the
    /// wanted block. If no slot was live, that gap is the whole zone. If it was at rest, it is all
    /// that is left beside the colormap's block, which has up to `MIN_FRAGMENT` bytes more than were
    /// asked for. If one more block was pinned, as that of a composite, it is the wider of two gaps.
    ///
    /// If the cache is in order for a list that has the lump, the zone is not full, no slot is
    /// emptied, and the cache is in order after Ok.
    ///
    /// `fetches` is the whole relation; the other clauses follow from it, as do the laws named
    /// `fetch_..` in `proofs/FetchLemmas`.
    ///
    /// The original: `W_CacheLumpNum`, w_wad.c.
    pub fn fetch<S: Shelf>(
        &mut self,
        shelf: &mut S,
        dir: &Directory,
        lump: LumpNo,
        tag: Tag,
    ) -> Result<(), CacheFault>
        requires in_range { lump.0 < self.old.lumps }
        requires listed { lump.0 < length dir.now.lumps }
        ensures fetches { FetchesLump dir.now lump.0 tag (S.view shelf.old) (S.view shelf.new)
            self.old self.new result }
        ensures hit { IsLive self.old (lump_owner lump.0) → shelf.new ≡ shelf.old }
        ensures untouched { (lump_at dir.now.lumps lump.0).size ≡ 0 → shelf.new ≡ shelf.old }
        ensures live { OnOk result (IsLive self.new (lump_owner lump.0)) }
        ensures pinned { (o : Owner) → same_owner (lump_owner lump.0) o ≡ false →
            IsPinned (owned_block o self.old.blocks) →
            owned_block o self.new.blocks ≡ owned_block o self.old.blocks }
        ensures counts { KeepsCounts self.old self.new }
        ensures faithful { (contents : List (List ℕ)) →
            NameFiles (S.view shelf.old) dir.now.files contents →
            IsFaithful contents dir.now.lumps self.old →
            IsFaithful contents dir.now.lumps self.new }
        ensures rest { (colormap count : ℕ) → tag ≡ Cache →
            IsAtRest colormap count self.old → IsAtRest colormap count self.new }
        ensures order { (items : List Item) →
            has_item items (lump_owner lump.0) (lump_at dir.now.lumps lump.0).size ≡ true →
            IsInOrder items self.old →
            MatchAnswer result
            (KeepsOrder items self.old self.new (S.view shelf.old).taken (S.view shelf.new).taken)
            (λ wanted widest. ⊥) ⊤ }
    {
        fetch_lump(&mut self.zone, shelf, dir, lump, tag)
    }

    /// Makes a live lump purgeable, unless its tag is `Static`. On an empty slot it does nothing.
    ///
    /// What the cache keeps: the laws named `release_..` in `proofs/ReleaseLemmas`.
    pub fn release(&mut self, lump: LumpNo)
        requires { lump.0 < self.old.lumps }
        ensures cache { self.new ≡ release_heap (lump_owner lump.0) self.old }
        ensures counts { KeepsCounts self.old self.new }
    {
        release_block(&mut self.zone, lump_slot(lump));
    }

    /// Takes a pinned block of `size` bytes for an empty composite.
    ///
    /// Errors: `ZoneFull` exactly where no gap holds the block. It does not come where the cache is
    /// in order for a list that has the composite with that size. The widest gap of a zone that was
    /// at rest and full is all that is left beside the colormap.
    ///
    /// What follows: the laws named `take_..` in `proofs/TakeLemmas`.
    pub fn take_composite(&mut self, number: u32, size: u32) -> Result<(), ZoneFull>
        requires in_range { number < self.old.composites }
        requires empty { IsNone (holding_of (composite_owner number) self.old.blocks) }
        ensures requests { RequestsBlock (composite_owner number) size Level
            self.old self.new result }
        ensures full { IsErr result ↔ All (λ g. total g < block_size size) (gaps self.old.blocks) }
        ensures live { OnOk result (IsLive self.new (composite_owner number)) }
        ensures counts { KeepsCounts self.old self.new }
    {
        self.zone.malloc(composite_slot(number), size, Tag::Level)
    }

    /// The bytes of a composite, or None exactly where it is not live.
    ///
    /// A zone at rest is large enough for a block of the colormap's size and one for the bytes that
    /// are lent.
    #[inline(always)]
    pub fn composite(&self, number: u32) -> Option<&[u8]>
        requires { number < self.now.composites }
        ensures value { option_copied result ≡ bytes_of (composite_owner number) self.now.blocks }
        ensures fits { (colormap count : ℕ) → IsAtRest colormap count self.now →
            IfSome (option_copied result) (λ bytes.
            block_size count + block_size (length bytes) ≤ self.now.size) }
    {
        self.zone.bytes(composite_slot(number))
    }

    /// Calls `f` with the bytes of a live composite, to be written, and returns what `f` returned.
    ///
    /// What the cache keeps: the laws named `write_..` in `proofs/WriteLemmas`, by `called`'s
    /// `zone`.
    pub fn composite_mut<R, F: FnOnce(&mut [u8]) -> R>(&mut self, number: u32, f: F) -> R
        requires callable { F.IsAlwaysCallable f }
        requires in_range { number < self.old.composites }
        requires live { IsLive self.old (composite_owner number) }
        ensures called { BytesChanged F.FnOnce f (composite_owner number)
            self.old self.new result }
        ensures live { IsLive self.new (composite_owner number) }
        ensures counts { KeepsCounts self.old self.new }
    {
        self.zone.bytes_mut(composite_slot(number), f)
    }

    /// Calls `f` with the bytes of a live lump and with those of a live composite, which it may
    /// write, and returns what `f` returned.
    ///
    /// What the cache keeps: the laws named `write_..` in `proofs/WriteLemmas`, by `called`'s
    /// `zone`.
    pub fn lump_and_composite<R, F: FnOnce(&[u8], &mut [u8]) -> R>(
        &mut self,
        lump: LumpNo,
        number: u32,
        f: F,
    ) -> R
        requires callable { F.IsAlwaysCallable f }
        requires lump_in_range { lump.0 < self.old.lumps }
        requires in_range { number < self.old.composites }
        requires lump_live { IsLive self.old (lump_owner lump.0) }
        requires live { IsLive self.old (composite_owner number) }
        ensures called { PairCalled F.FnOnce f (lump_owner lump.0) (composite_owner number)
            self.old self.new result }
        ensures live { IsLive self.new (composite_owner number) }
        ensures counts { KeepsCounts self.old self.new }
    {
        self.zone.pair(lump_slot(lump), composite_slot(number), f)
    }

    /// Makes a live composite purgeable. On an empty slot it does nothing.
    ///
    /// What the cache keeps: the laws named `release_..` in `proofs/ReleaseLemmas`.
    pub fn release_composite(&mut self, number: u32)
        requires { number < self.old.composites }
        ensures cache { self.new ≡ release_heap (composite_owner number) self.old }
        ensures counts { KeepsCounts self.old self.new }
    {
        release_block(&mut self.zone, composite_slot(number));
    }

    /// Frees the block of a live composite.
    ///
    /// What the cache keeps: the laws named `drop_..` in `proofs/DropLemmas`.
    pub fn drop_composite(&mut self, number: u32)
        requires in_range { number < self.old.composites }
        requires live { IsLive self.old (composite_owner number) }
        ensures freed { self.new ≡ without_block (composite_owner number) self.old }
        ensures empty { owned_block (composite_owner number) self.new.blocks ≡ None }
        ensures counts { KeepsCounts self.old self.new }
    {
        self.zone.free(composite_slot(number));
    }
}
