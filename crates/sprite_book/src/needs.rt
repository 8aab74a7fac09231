// The frames that are needed, one after another.
ghost use Rattle.sprite_book.specs.Rules.{Patch, each_of, first_needs, frame_of, itself, mentions, outline, outline_of};
ghost use Rattle.std.specs.Prelude.{◌≡◌, ◌≤◌, [], length, map, replicate, Option, None, Ok, IfOk, OnOk};
ghost use Rattle.lump_cache.specs.Calls.{ReadsLumps};
ghost use Rattle.sprite_book.specs.Calls.{HavePlaces, Reads, IsWanted};
ghost use Rattle.sprite_book.specs.Indexes.{IsIndexOf, IsPlaceOf};

use crate::Need;
use crate::fault::SpriteFault;
use crate::list::FrameList;
use crate::mentions::Mentions;
use crate::read::read_frame;
use art_rules::{OutOfMemory, Patch, Shelf};
use lump_cache::{Directory, LumpCache};
use std::alloc::Global;

// The needed frames.
pub fn read_list<S: Shelf>(
    alloc: Global,
    needed: &[Need],
    index: &Mentions,
    dir: &Directory,
    cache: &mut LumpCache,
    shelf: &mut S,
) -> Result<FrameList, SpriteFault>
    requires slots { length dir.now.lumps ≤ cache.old.lumps }
    requires indexed { IsIndexOf index.now (mentions dir.now.lumps) }
    ensures tells { ReadsLumps itself (S.view shelf.old) (S.view shelf.new) dir.now cache.old
        cache.new (IsWanted dir.now.lumps needed.now) (λ list. list.frames.items)
        (λ bytes. each_of (frame_of bytes dir.now.lumps) (first_needs needed.now)) result }
    ensures outlines { IfOk result (λ list. each_of (outline_of dir.now.lumps)
        (first_needs needed.now) ≡ Ok (map outline list.frames.items)) }
    ensures placed { IfOk result (λ list. IsPlaceOf list.index list.frames.items) }
{
    let mut patches = no_patches(alloc, dir.count() as usize)?;
    let mut list = FrameList::new(alloc);
    read_frames(&mut list, &mut patches, needed, index, dir, cache, shelf)?;
    Ok(list)
}

// A place for the patch of each lump.
fn no_patches(alloc: Global, count: usize) -> Result<Vec<Option<Patch>>, OutOfMemory>
    ensures { IfOk result (λ patches. patches.items ≡ replicate count None) }
{
    vec![in alloc; None; count]
}

// Reads the frames that are not there yet.
fn read_frames<S: Shelf>(
    list: &mut FrameList,
    patches: &mut [Option<Patch>],
    needed: &[Need],
    index: &Mentions,
    dir: &Directory,
    cache: &mut LumpCache,
    shelf: &mut S,
) -> Result<(), SpriteFault>
    requires places { HavePlaces (length dir.now.lumps) cache.old.lumps (length patches.old) }
    requires indexed { IsIndexOf index.now (mentions dir.now.lumps) }
    requires empty { list.old.frames.items ≡ [] }
    requires placed { IsPlaceOf list.old.index list.old.frames.items }
    ensures tells { Reads (S.view shelf.old) (S.view shelf.new) dir.now cache.old cache.new
        patches.old patches.new (IsWanted dir.now.lumps needed.now) (λ _. list.new.frames.items)
        (λ bytes. each_of (frame_of bytes dir.now.lumps) (first_needs needed.now)) result }
    ensures outlines { OnOk result (each_of (outline_of dir.now.lumps) (first_needs needed.now)
        ≡ Ok (map outline list.new.frames.items)) }
    ensures placed { OnOk result (IsPlaceOf list.new.index list.new.frames.items) }
{
    for need in needed {
        if list.has(need) {
            continue;
        }
        let frame = read_frame(need, index, patches, dir, cache, shelf)?;
        list.add(frame)?;
    }
    Ok(())
}
