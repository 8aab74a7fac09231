// A book of frames.
ghost use Rattle.sprite_book.specs.Rules.{AllWithin, Frame, HasCauses, IsLaterShelf, MIN_FRAGMENT, NameFiles, ResultIs, book_lumps, book_of, each_of, first_needs, frame_of, itself, lump_at, mentions, outline, outline_of, outlines_of, picked};
ghost use Rattle.lump_cache.specs.Caches.{IsFaithful, IsAtRest, KeepsCounts, lump_owner, composite_owner};
ghost use Rattle.lump_cache.specs.Calls.{ReadsLumps, IfFull, LeavesInOrder};
ghost use Rattle.sprite_book.specs.Calls.{IsWanted};
ghost use Rattle.sprite_book.specs.Indexes.{IsPlaceOf};
ghost use Rattle.std.specs.List.Sorted.{IsStrictlyIncreasing};
ghost use Rattle.std.specs.Prelude.{◌≡◌, ◌<◌, ◌≤◌, ◌+◌, ◌↔◌, true, ℕ, List, length, map, All, Contains, Option, Some, Ok, IfOk, IfErr, IfSome};
ghost use Rattle.lump_cache.specs.Orders.{Item, has_item, IsInOrder};
ghost use Rattle.lump_cache.specs.Zones.{block_size, bytes_of};

use crate::fault::SpriteFault;
use crate::list::{FrameList, list_pictures};
use crate::mentions::index_mentions;
use crate::needs::read_list;
use crate::{Need, Shape};
use art_rules::{OutOfMemory, ROTATIONS, SPRITE_LETTERS, Shelf};
use lump_cache::{Directory, LumpCache, LumpNo};
use std::alloc::Global;
use std::marker::Model;

/// The frames that things need, each with its shapes from the eight rotations. Contracts see them
/// as a list, in the order in which they are first needed.
///
/// It keeps an index by sprite and frame, so `pick` goes over no list.
///
/// The original: `sprites`, r_things.c, for all frames of all sprites.
#[derive(Drop)]
pub struct SpriteBook {
    list: FrameList,
    pictures: Vec<LumpNo>,
}

impl Model for SpriteBook {
    ghost use Rattle.std.specs.Prelude.{List, map};
    ghost use Rattle.art_rules.specs.declared.shapes.Frame.{Frame};
    ghost use Rattle.sprite_book.specs.Indexes.{IsPlaceOf, ArePictures};

    ghost Value = { List Frame };

    ghost view = { λ book. book.list.frames.items };

    ghost invariant = { λ book.
        IsPlaceOf book.list.index book.list.frames.items
        × ArePictures book.list.frames.items (map (λ lump. lump.0) book.pictures.items) };
}

impl SpriteBook {
    /// The frames that are needed, found by the names of the sprite lumps and read through the
    /// cache.
    ///
    /// Each need is judged before the next. Takes memory for what the names mention, for the
    /// frames, and while it runs a few bytes for each lump.
    ///
    /// Errors: `Refused` with the first refusal of the needs in their order: of each first that no
    /// lump mentions the frame, then the least rotation without a picture, then the first picture
    /// that is no patch. `ReadFault` only where the shelf's count of faults rose. `ZoneFull` only
    /// where no gap held the block of a picture of a needed frame. `OutOfMemory`. The shelf goes on
    /// to stand for what it stood for, a cache that was at rest or faithful stays so, and no
    /// composite is made.
    ///
    /// The original: `R_InitSprites` and `R_InitSpriteDefs`, r_things.c, which end the program
    /// there. This project's own: only the frames that are needed are looked at, a lump that is no
    /// patch is refused, and the last mention of a frame decides its kind.
    pub fn load<S: Shelf>(
        alloc: Global,
        needed: &[Need],
        dir: &Directory,
        cache: &mut LumpCache,
        shelf: &mut S,
    ) -> Result<SpriteBook, SpriteFault>
        requires slots { length dir.now.lumps ≤ cache.old.lumps }
        ensures tells { ReadsLumps itself (S.view shelf.old) (S.view shelf.new) dir.now cache.old
            cache.new (IsWanted dir.now.lumps needed.now) (λ book. book)
            (λ bytes. each_of (frame_of bytes dir.now.lumps) (first_needs needed.now)) result }
        ensures answers { (contents : List (List ℕ)) →
            NameFiles (S.view shelf.old) dir.now.files contents → AllWithin contents dir.now.lumps →
            IsFaithful contents dir.now.lumps cache.old →
            ResultIs itself (S.view shelf.old).steady (λ book. book)
            (book_of contents dir.now.lumps needed.now) result }
        ensures outlines { IfOk result
            (λ book. outlines_of dir.now.lumps needed.now ≡ Ok (map outline book)) }
        ensures there { IfOk result (λ book. All
            (λ frame. All (λ shape. shape.lump.0 < length dir.now.lumps) frame.shapes) book) }
        ensures follows { IsLaterShelf (S.view shelf.old) (S.view shelf.new) }
        ensures causes { HasCauses itself (S.view shelf.old).faults (S.view shelf.new).faults
            result }
        ensures full { IfErr result
            (λ fault. IfFull (itself fault)
            (λ wanted widest'. (lump : ℕ) × IsWanted dir.now.lumps needed.now lump ×
            (wanted ≡ block_size (lump_at dir.now.lumps lump).size) × (widest' < wanted))) }
        ensures room { (colormap size : ℕ) → IsAtRest colormap size cache.old →
            IfErr result (λ fault. IfFull (itself fault)
            (λ wanted widest'. cache.old.size < block_size size + wanted + MIN_FRAGMENT)) }
        ensures faithful { (contents : List (List ℕ)) →
            NameFiles (S.view shelf.old) dir.now.files contents →
            IsFaithful contents dir.now.lumps cache.old →
            IsFaithful contents dir.now.lumps cache.new }
        ensures rest { (colormap size : ℕ) → IsAtRest colormap size cache.old →
            IsAtRest colormap size cache.new }
        ensures counts { KeepsCounts cache.old cache.new }
        ensures composites { (number : ℕ) →
            IfSome (bytes_of (composite_owner number) cache.new.blocks)
            (λ bytes. bytes_of (composite_owner number) cache.old.blocks ≡ Some bytes) }
        ensures order { (items : List Item) →
            ((lump : ℕ) → IsWanted dir.now.lumps needed.now lump →
            has_item items (lump_owner lump) (lump_at dir.now.lumps lump).size ≡ true) →
            IsInOrder items cache.old →
            LeavesInOrder itself items (S.view shelf.old) (S.view shelf.new)
            cache.old cache.new result }
    {
        make_book(alloc, needed, dir, cache, shelf)
    }

    /// The shape of a frame from a rotation, 0 to 7, or `None` exactly where the frame was not
    /// needed. Takes no memory.
    ///
    /// Rotation 0 is the picture of the digit 1, seen from the front, and the further ones are seen
    /// counterclockwise from there, by an eighth of a turn each.
    ///
    /// The original: `R_ProjectSprite`, r_things.c, where it reads `sprframe->lump` and `flip`.
    pub fn pick(&self, sprite: [u8; SPRITE_LETTERS], frame: u8, rotation: u8) -> Option<Shape>
        requires { rotation < ROTATIONS }
        ensures { result ≡ picked self.now sprite frame rotation }
    {
        self.list.pick(sprite, frame, rotation)
    }

    /// The lumps of all shapes, ascending and each once.
    pub fn pictures(&self) -> &[LumpNo]
        ensures ascending { IsStrictlyIncreasing (map (λ lump. lump.0) result.now) }
        ensures lumps { (lump : ℕ) →
            Contains (map (λ lump. lump.0) result.now) lump ↔ Contains (book_lumps self.now) lump }
    {
        &self.pictures
    }
}

// Finds what the names mention, reads the frames, and lists their lumps.
fn make_book<S: Shelf>(
    alloc: Global,
    needed: &[Need],
    dir: &Directory,
    cache: &mut LumpCache,
    shelf: &mut S,
) -> Result<SpriteBook, SpriteFault>
    requires slots { length dir.now.lumps ≤ cache.old.lumps }
    ensures tells { ReadsLumps itself (S.view shelf.old) (S.view shelf.new) dir.now cache.old
        cache.new (IsWanted dir.now.lumps needed.now) (λ book. book)
        (λ bytes. each_of (frame_of bytes dir.now.lumps) (first_needs needed.now)) result }
    ensures outlines { IfOk result (λ book. each_of (outline_of dir.now.lumps)
        (first_needs needed.now) ≡ Ok (map outline book)) }
{
    let index = index_mentions(alloc, dir)?;
    let list = read_list(alloc, needed, &index, dir, cache, shelf)?;
    Ok(bind(alloc, list)?)
}

// The book of a list of frames.
fn bind(alloc: Global, list: FrameList) -> Result<SpriteBook, OutOfMemory>
    requires { IsPlaceOf list.index list.frames.items }
    ensures { IfOk result (λ book. book ≡ list.frames.items) }
{
    let pictures = list_pictures(alloc, &list.frames)?;
    Ok(SpriteBook { list, pictures })
}
