// The zone and its calls.
//
// Rules: `zone_rules`, Zones, Requests and Frees. The original: z_zone.c.
ghost use Rattle.std.specs.Prelude.{false, ◌≡◌, ◌<◌, ◌≤◌, ◌+◌, ◌*◌, ◌%◌, ◌↔◌, ℕ, [], ◌∷◌, length, All, IsErr, IfOk, OnOk, OnErr, IfErr, IsNone, IfSome, slice_range, IsTrue, option_map, vec_len, slice_index, None};
ghost use Rattle.std.specs.Option.{option_copied};
ghost use Rattle.zone_heap.specs.Calls.{PairCalled, BytesChanged, BytesChangedWith};
ghost use Rattle.zone_heap.specs.Regions.{blocks_in, IsRing};
ghost use Rattle.zone_heap.specs.View.{heap_of, IsZone};
ghost use Rattle.zone_heap.specs.Rules.{Heap, IsLive, IsSound, IsZoneSize, Owner, TakesBlock, block_left, block_size, bytes_of, free_block, free_size, fresh_heap, gaps, holding_of, is_purgeable, owned_block, owner_at, passed_blocks, purgeable_size, retag_block, same_owner, slot_count, stretches, total, used_size, widest, with_tag, without_block, without_room};

use crate::headers::{Used, owner_word, tag_code};
use crate::homes::{Homes, NO_HOME};
use crate::look::{Span, live_span, retag, slot_span, slot_tag};
use crate::request::{Request, release, serve};
use crate::slot::{CompositeKind, LumpKind, Slot, SlotKind};
use crate::{edits, figures, pair};
use std::alloc::{AllocError, Global};
use std::marker::Model;
use thiserror::Error;
use word_rules::WORD_SIZE;
use zone_rules::{HEADER_SIZE, MAX_ZONE_SIZE, MIN_ZONE_SIZE, SLOT_LIMIT, Tag};

/// Why a zone was not made.
#[derive(Debug, Drop, Error)]
pub enum ZoneMake {
    /// The size is out of range, or no multiple of a word.
    #[error("a zone has 64 to 536870912 bytes, a multiple of 4")]
    BadSize,
    /// No memory for the bytes or the homes.
    #[error("out of memory")]
    OutOfMemory,
}

/// No gap holds what is wanted: the size of the block with its header, and the widest gap, in
/// bytes.
#[derive(Clone, Copy, Debug, Drop, Error)]
#[error("the zone is full: a block of {wanted} bytes was wanted, the widest gap has {widest}")]
pub struct ZoneFull {
    pub wanted: u64,
    pub widest: u64,
}

/// What a zone's blocks add up to, in bytes with their headers, and how many were purged.
#[derive(Clone, Copy, Debug, PartialEq, Eq)]
pub struct ZoneFigures {
    pub used: u32,
    pub purgeable: u32,
    pub free: u32,
    pub purges: u64,
}

/// One region of bytes, tiled by blocks: contracts see the list of blocks, the rover and the
/// purges.
pub struct Zone {
    region: Vec<u8>,
    homes: Homes,
    size: u32,
    composites: u32,
    rover: u32,
    purges: u64,
}

// By hand, so that a drop of one is one call.
impl Drop for Zone {
    fn drop(self) {
        let Zone {
            region: _,
            homes: _,
            size: _,
            composites: _,
            rover: _,
            purges: _,
        } = self;
    }
}

impl Model for Zone {
    ghost Value = { Heap };

    ghost view = { heap_of };

    ghost invariant = { IsZone };
}

impl Zone {
    /// A zone of one free block of `size` bytes, with `lumps` and `composites` slots.
    ///
    /// Takes all the memory of the zone: its bytes, which hold the headers too, and a home for each
    /// slot.
    ///
    /// Errors: `BadSize` exactly where the size is under `MIN_ZONE_SIZE`, over `MAX_ZONE_SIZE` or
    /// no multiple of `WORD_SIZE`; it comes first. `OutOfMemory`.
    ///
    /// The original: `Z_Init`, z_zone.c.
    pub fn new(alloc: Global, size: u32, lumps: u32, composites: u32) -> Result<Zone, ZoneMake>
        requires lumps { lumps < SLOT_LIMIT }
        requires composites { composites < SLOT_LIMIT }
        ensures bad { (result ≡ Err ZoneMake.BadSize) ↔ (¬ IsZoneSize size) }
        ensures fresh { IfOk result (λ z. z ≡ fresh_heap size lumps composites) }
        ensures sound { IfOk result IsSound }
    {
        if size < MIN_ZONE_SIZE || size > MAX_ZONE_SIZE || size % WORD_SIZE as u32 != 0 {
            return Err(ZoneMake::BadSize);
        }
        match make_parts(alloc, size, lumps, composites) {
            Ok(parts) => Ok(Zone {
                region: parts.region,
                homes: parts.homes,
                size,
                composites,
                rover: 0,
                purges: 0,
            }),
            Err(AllocError) => Err(ZoneMake::OutOfMemory),
        }
    }

    /// Gives a block of `size` bytes to an empty slot.
    ///
    /// The search goes from the free block before the rover, or the block at it, to the region's
    /// end, and then over all gaps. It purges the blocks that it passes where their tag lets it,
    /// and no other. Takes no memory: `new` took it all.
    ///
    /// Errors: `ZoneFull` exactly where no gap holds the block with its header. Then every
    /// purgeable block was purged, and each pinned one stands with its bytes.
    ///
    /// The original: `Z_Malloc`, z_zone.c, which ends the program there.
    pub fn malloc<K: SlotKind>(
        &mut self,
        slot: Slot<K>,
        size: u32,
        tag: Tag,
    ) -> Result<(), ZoneFull>
        requires in_range { slot.number < slot_count self.old K.CODE }
        requires empty { IsNone (holding_of (owner_at K.CODE slot.number) self.old.blocks) }
        ensures full { IsErr result ↔
            All (λ g. total g < block_size size) (gaps self.old.blocks) }
        ensures report { IfErr result (λ e.
            (e.wanted ≡ block_size size) × (e.widest ≡ widest (gaps self.old.blocks))) }
        ensures err { OnErr result (self.new ≡ without_room (block_size size) self.old) }
        ensures ok { OnOk result
            (TakesBlock self.old self.new (owner_at K.CODE slot.number) size tag) }
        ensures empty { OnErr result
            (owned_block (owner_at K.CODE slot.number) self.new.blocks ≡ None) }
        ensures purged { OnErr result (All (λ b. is_purgeable b ≡ false) self.new.blocks) }
        ensures others { (o : Owner) → same_owner (owner_at K.CODE slot.number) o ≡ false →
            owned_block o self.new.blocks
            ≡ block_left
            (passed_blocks (block_size size) (stretches self.old.rover self.old.blocks))
            (owned_block o self.old.blocks) }
        ensures sound { IsSound self.new }
    {
        let wanted = block_size(size);
        let rover = self.rover as usize;
        let request = Request {
            wanted,
            used: Used {
                asked: size,
                owner: owner_word(K::CODE, slot.number()),
                tag: tag_code(tag),
            },
        };
        let outcome = serve(&mut self.region, &mut self.homes, rover, request);
        self.purges = self.purges.saturating_add(outcome.purges);
        self.rover = outcome.rover as u32;
        if let Err(full) = outcome.place {
            return Err(full);
        }
        Ok(())
    }

    /// Whether the slot has a block. One look-up of the slot's home.
    #[inline(always)]
    pub fn is_live<K: SlotKind>(&self, slot: Slot<K>) -> bool
        requires { slot.number < slot_count self.now K.CODE }
        ensures live { IsTrue result ↔ IsLive self.now (owner_at K.CODE slot.number) }
        ensures sound { IsSound self.now }
    {
        self.homes.of(K::CODE, slot.number()) != NO_HOME
    }

    /// The tag of the slot's block, or None exactly where the slot is empty.
    #[inline(always)]
    pub fn tag<K: SlotKind>(&self, slot: Slot<K>) -> Option<Tag>
        requires { slot.number < slot_count self.now K.CODE }
        ensures { result
            ≡ option_map (λ h. h.tag)
            (holding_of (owner_at K.CODE slot.number) self.now.blocks) }
    {
        slot_tag(&self.region, &self.homes, K::CODE, slot.number())
    }

    /// The slot's bytes, as many as were asked for, or None exactly where the slot is empty.
    #[inline(always)]
    pub fn bytes<K: SlotKind>(&self, slot: Slot<K>) -> Option<&[u8]>
        requires { slot.number < slot_count self.now K.CODE }
        ensures { option_copied result ≡ bytes_of (owner_at K.CODE slot.number) self.now.blocks }
    {
        let span = slot_span(&self.region, &self.homes, K::CODE, slot.number());
        cut(&self.region, span)
    }

    /// Calls `f` with the bytes of a live slot, to be written, and returns what it returned.
    ///
    /// The block then has what `f` left, and the zone is otherwise as before.
    pub fn bytes_mut<K: SlotKind, R, F: FnOnce(&mut [u8]) -> R>(&mut self, slot: Slot<K>, f: F) -> R
        requires callable { F.IsAlwaysCallable f }
        requires in_range { slot.number < slot_count self.old K.CODE }
        requires live { IsLive self.old (owner_at K.CODE slot.number) }
        ensures called { BytesChanged F.FnOnce f (owner_at K.CODE slot.number)
            self.old self.new result }
    {
        let span = live_span(&self.region, &self.homes, K::CODE, slot.number);
        pair::with_part(&mut self.region, span, f)
    }

    /// Calls `f` with the bytes of a live slot, to be written, and with `context`, which it may
    /// change, and returns what it returned.
    ///
    /// What a function changed of its captures is not known to its caller, but what it left of
    /// `context` is.
    pub fn bytes_mut_with<K: SlotKind, C, R, F: FnOnce(&mut [u8], &mut C) -> R>(
        &mut self,
        slot: Slot<K>,
        context: &mut C,
        f: F,
    ) -> R
        requires callable { F.IsAlwaysCallable f }
        requires in_range { slot.number < slot_count self.old K.CODE }
        requires live { IsLive self.old (owner_at K.CODE slot.number) }
        ensures called { BytesChangedWith F.FnOnce f (owner_at K.CODE slot.number)
            self.old self.new context.old context.new result }
    {
        let span = live_span(&self.region, &self.homes, K::CODE, slot.number);
        pair::with_part_and(&mut self.region, span, context, f)
    }

    /// Calls `f` with the bytes of a live lump's slot, and with those of a live composite's, these
    /// to be written, and returns what it returned.
    pub fn pair<R, F: FnOnce(&[u8], &mut [u8]) -> R>(
        &mut self,
        read: Slot<LumpKind>,
        write: Slot<CompositeKind>,
        f: F,
    ) -> R
        requires callable { F.IsAlwaysCallable f }
        requires read_in_range { read.number < self.old.lumps }
        requires write_in_range { write.number < self.old.composites }
        requires read_live { IsLive self.old (owner_at 0 read.number) }
        requires write_live { IsLive self.old (owner_at 1 write.number) }
        ensures called { PairCalled F.FnOnce f (owner_at 0 read.number) (owner_at 1 write.number)
            self.old self.new result }
    {
        let from = live_span(&self.region, &self.homes, 0, read.number());
        let to = live_span(&self.region, &self.homes, 1, write.number());
        pair::with_parts(&mut self.region, from, to, f)
    }

    /// What the pinned, the purgeable and the free blocks add up to, and how many were purged.
    pub fn figures(&self) -> ZoneFigures
        ensures used { result.used ≡ used_size self.now.blocks }
        ensures purgeable { result.purgeable ≡ purgeable_size self.now.blocks }
        ensures free { result.free ≡ free_size self.now.blocks }
        ensures purges { result.purges ≡ self.now.purges }
        ensures sum { result.used + result.purgeable + result.free ≡ self.now.size }
    {
        let sums = figures::add_up(&self.region);
        ZoneFigures {
            used: sums.pinned,
            purgeable: sums.purgeable,
            free: sums.free,
            purges: self.purges,
        }
    }

    /// Frees the block of a live slot, and joins it with its free neighbours.
    ///
    /// A rover that stood at one of the joined blocks is then the place of the joined block. The
    /// original: `Z_Free`, z_zone.c.
    pub fn free<K: SlotKind>(&mut self, slot: Slot<K>)
        requires in_range { slot.number < slot_count self.old K.CODE }
        requires live { IsLive self.old (owner_at K.CODE slot.number) }
        ensures freed { self.new ≡ without_block (owner_at K.CODE slot.number) self.old }
        ensures empty { owned_block (owner_at K.CODE slot.number) self.new.blocks ≡ None }
        ensures others { (o : Owner) → same_owner (owner_at K.CODE slot.number) o ≡ false →
            owned_block o self.new.blocks ≡ owned_block o self.old.blocks }
        ensures sound { IsSound self.new }
    {
        release(&mut self.region, &mut self.homes, K::CODE, slot.number());
        self.rover = edits::place_in(&self.region, self.rover as usize) as u32;
    }

    /// Gives the block of a live slot another tag. The rover stays.
    ///
    /// The original: `Z_ChangeTag`, z_zone.c.
    pub fn change_tag<K: SlotKind>(&mut self, slot: Slot<K>, tag: Tag)
        requires in_range { slot.number < slot_count self.old K.CODE }
        requires live { IsLive self.old (owner_at K.CODE slot.number) }
        ensures tag { self.new ≡ with_tag (owner_at K.CODE slot.number) tag self.old }
        ensures block { owned_block (owner_at K.CODE slot.number) self.new.blocks
            ≡ option_map (retag_block (owner_at K.CODE slot.number) tag)
            (owned_block (owner_at K.CODE slot.number) self.old.blocks) }
        ensures others { (o : Owner) → same_owner (owner_at K.CODE slot.number) o ≡ false →
            owned_block o self.new.blocks ≡ owned_block o self.old.blocks }
        ensures sound { IsSound self.new }
    {
        retag(&mut self.region, &self.homes, K::CODE, slot.number(), tag);
    }
}

/// The bytes of a span, if there is one.
#[inline(always)]
fn cut(region: &[u8], span: Option<Span>) -> Option<&[u8]>
    requires { IfSome span (λ s. (s.from ≤ s.to) × (s.to ≤ length region.now)) }
    ensures { option_copied result ≡ option_map (λ s. slice_range region.now s.from s.to) span }
{
    match span {
        None => None,
        Some(span) => Some(&region[span.from..span.to]),
    }
}

/// The size of a block for `size` bytes, its header with it.
pub fn block_size(size: u32) -> u64
    ensures value { result ≡ block_size size }
    ensures least { HEADER_SIZE ≤ result }
{
    let word = WORD_SIZE as u64;
    (u64::from(size) + word - 1) / word * word + u64::from(HEADER_SIZE)
}

/// What a zone is made of.
#[derive(Drop)]
struct Parts {
    region: Vec<u8>,
    homes: Homes,
}

/// The bytes of a zone as one free block, and a home for each slot, all empty.
fn make_parts(alloc: Global, size: u32, lumps: u32, composites: u32) -> Result<Parts, AllocError>
    requires size { HEADER_SIZE ≤ size }
    requires lumps { lumps < SLOT_LIMIT }
    requires composites { composites < SLOT_LIMIT }
    ensures region { IfOk result (λ p. vec_len p.region ≡ size) }
    ensures ring { IfOk result (λ p. IsRing p.region.items) }
    ensures blocks { IfOk result (λ p. blocks_in p.region.items ≡ free_block 0 size ∷ []) }
    ensures lumps { IfOk result (λ p. p.homes.lumps ≡ lumps) }
    ensures homes { IfOk result (λ p. vec_len p.homes.list ≡ lumps + composites) }
    ensures empty { IfOk result (λ p.
        (k : ℕ) → k < lumps + composites → slice_index p.homes.list.items k ≡ NO_HOME) }
{
    let mut region = vec![in alloc; 0u8; size as usize]?;
    edits::lay_free(&mut region, size);
    let homes = Homes::new(alloc, lumps, composites)?;
    Ok(Parts { region, homes })
}
