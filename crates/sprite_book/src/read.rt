// The shapes of a frame, read from its lumps.
ghost use Rattle.sprite_book.specs.Rules.{Patch, each_of, frame_of, itself, mention_outline, mentions, outline, outline_of, patch_of, patch_or_bad, shape_in, shape_of, shape_outline};
ghost use Rattle.std.specs.Prelude.{◌≡◌, ◌<◌, ◌≤◌, length, map, All, Option, Some, Ok, IfOk, OnOk};
ghost use Rattle.std.specs.Option.{option_and_then};
ghost use Rattle.lump_cache.specs.Zones.{bytes_of};
ghost use Rattle.lump_cache.specs.Caches.{lump_owner};
ghost use Rattle.lump_cache.specs.Calls.{ReadsLumps};
ghost use Rattle.sprite_book.specs.Calls.{HavePlaces, Reads, IsLumpOf, IsWantedBy};
ghost use Rattle.sprite_book.specs.Indexes.{IsIndexOf};

use crate::fault::SpriteFault;
use crate::mentions::Mentions;
use crate::pictures::find_pictures;
use crate::{Frame, Need, Shape};
use art_rules::{Mention, Patch, ROTATIONS, Shelf, SpriteRefusal};
use lump_cache::{Directory, LumpCache, LumpNo, fetch_live};

// What stands in the place of a shape that is not read yet.
const NO_SHAPE: Shape = Shape {
    lump: LumpNo(0),
    flip: false,
    width: 0,
    left: 0,
    top: 0,
};

// Finds the pictures of a frame and reads them.
pub fn read_frame<S: Shelf>(
    need: &Need,
    index: &Mentions,
    patches: &mut [Option<Patch>],
    dir: &Directory,
    cache: &mut LumpCache,
    shelf: &mut S,
) -> Result<Frame, SpriteFault>
    requires places { HavePlaces (length dir.now.lumps) cache.old.lumps (length patches.old) }
    requires indexed { IsIndexOf index.now (mentions dir.now.lumps) }
    ensures tells { Reads (S.view shelf.old) (S.view shelf.new) dir.now cache.old cache.new
        patches.old patches.new (IsWantedBy dir.now.lumps need.now) (λ frame. frame)
        (λ bytes. frame_of bytes dir.now.lumps need.now) result }
    ensures outline { IfOk result (λ frame. outline_of dir.now.lumps need.now
        ≡ Ok (outline frame)) }
{
    let pictures = find_pictures(index, need).map_err(SpriteFault::Refused)?;
    let mut shapes = [NO_SHAPE; ROTATIONS];
    fill_shapes(&mut shapes, &pictures, patches, dir, cache, shelf)?;
    Ok(Frame {
        sprite: need.sprite,
        frame: need.frame,
        shapes,
    })
}

// Reads the shapes of some pictures, in order.
fn fill_shapes<S: Shelf>(
    shapes: &mut [Shape],
    pictures: &[Mention],
    patches: &mut [Option<Patch>],
    dir: &Directory,
    cache: &mut LumpCache,
    shelf: &mut S,
) -> Result<(), SpriteFault>
    requires places { HavePlaces (length dir.now.lumps) cache.old.lumps (length patches.old) }
    requires count { length shapes.old ≡ length pictures.now }
    requires there { All (λ mention. mention.lump < length dir.now.lumps) pictures.now }
    ensures tells { Reads (S.view shelf.old) (S.view shelf.new) dir.now cache.old cache.new
        patches.old patches.new (IsLumpOf pictures.now) (λ _. shapes.new)
        (λ bytes. each_of (shape_of bytes) pictures.now) result }
    ensures outlines { OnOk result (map shape_outline shapes.new
        ≡ map mention_outline pictures.now) }
{
    for (k, mention) in pictures.iter().enumerate() {
        let patch = read_patch(patches, dir, cache, shelf, mention.lump)?;
        shapes[k] = shape_in(mention, &patch);
    }
    Ok(())
}

// How a picture is drawn whose lump is that patch.
#[tactic(auto, unfolding(art_rules::specs::Books::shape_in))]
fn shape_in(mention: &Mention, patch: &Patch) -> Shape
    ensures { result ≡ shape_in mention.now patch.now }
{
    Shape {
        lump: LumpNo(mention.lump),
        flip: mention.flip,
        width: patch.width,
        left: patch.left,
        top: patch.top,
    }
}

// The patch that a lump is, which is read once.
fn read_patch<S: Shelf>(
    patches: &mut [Option<Patch>],
    dir: &Directory,
    cache: &mut LumpCache,
    shelf: &mut S,
    lump: u16,
) -> Result<Patch, SpriteFault>
    requires places { HavePlaces (length dir.now.lumps) cache.old.lumps (length patches.old) }
    requires there { lump < length dir.now.lumps }
    ensures { Reads (S.view shelf.old) (S.view shelf.new) dir.now cache.old cache.new patches.old
        patches.new (λ n. n ≡ lump) (λ patch. patch) (λ bytes. patch_or_bad bytes lump) result }
{
    if let Some(patch) = patches[lump as usize] {
        return Ok(patch);
    }
    let patch = fetch_patch(dir, cache, shelf, lump)?;
    patches[lump as usize] = Some(patch);
    Ok(patch)
}

// Fetches a lump and judges it.
fn fetch_patch<S: Shelf>(
    dir: &Directory,
    cache: &mut LumpCache,
    shelf: &mut S,
    lump: u16,
) -> Result<Patch, SpriteFault>
    requires slots { length dir.now.lumps ≤ cache.old.lumps }
    requires there { lump < length dir.now.lumps }
    ensures { ReadsLumps itself (S.view shelf.old) (S.view shelf.new) dir.now cache.old cache.new
        (λ n. n ≡ lump) (λ patch. patch) (λ bytes. patch_or_bad bytes lump) result }
{
    fetch_live::<S, SpriteRefusal>(cache, dir, shelf, LumpNo(lump))?;
    match live_patch(cache, LumpNo(lump)) {
        Some(patch) => Ok(patch),
        None => Err(SpriteFault::Refused(SpriteRefusal::BadPatch {
            lump: u64::from(lump),
        })),
    }
}

// The patch that a live lump is.
fn live_patch(cache: &LumpCache, lump: LumpNo) -> Option<Patch>
    requires { lump.0 < cache.now.lumps }
    ensures { result ≡ option_and_then patch_of (bytes_of (lump_owner lump.0) cache.now.blocks) }
{
    match cache.bytes(lump) {
        Some(bytes) => Patch::read(bytes),
        None => None,
    }
}
