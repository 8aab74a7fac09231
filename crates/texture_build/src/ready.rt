// What a texture column is read from, made live.
//
// Rules: `specs/Ready`, `specs/Sources` and `specs/Asked`. The original: `R_GetColumn`, r_data.c.
ghost use Rattle.std.specs.Prelude.{◌≡◌, ◌<◌, ◌≤◌, length, Ok};
ghost use Rattle.lump_cache.specs.Orders.{is_live};
ghost use Rattle.lump_cache.specs.Caches.{lump_owner, composite_owner};
ghost use Rattle.art_rules.specs.declared.ColumnLookup.TheVariants.{Composed};
ghost use Rattle.texture_build.specs.Ready.{MakesColumnLive};
ghost use Rattle.texture_build.specs.Sources.{IsColumnLive, IsColumnThere};
ghost use Rattle.texture_build.specs.Views.{ArePatchesThere};

use crate::build::build_composite;
use crate::prepared::PreparedTexture;
use art_rules::{ColumnLookup, Shelf};
use lump_cache::{CacheFault, Directory, LumpCache, LumpNo, Tag};

// Makes live what a column of the texture of that number is read from, by its lookup: the lump of
// its one patch, or the composite, which is built where it is not live. A cache at rest is at rest
// after it. Takes no memory.
//
// Errors: `ZoneFull` where no gap of the zone held the block of the lump, of the composite or of a
// patch of it, `ReadFault` where a call of the shelf failed.
#[inline(always)]
pub(crate) fn make_ready_at<S: Shelf>(
    texture: &PreparedTexture,
    number: u32,
    lookup: ColumnLookup,
    dir: &Directory,
    cache: &mut LumpCache,
    shelf: &mut S,
) -> Result<(), CacheFault>
    requires slots { length dir.now.lumps ≤ cache.old.lumps }
    requires composite { number < cache.old.composites }
    requires there { ArePatchesThere dir.now.lumps texture.now }
    requires listed { IsColumnThere dir.now.lumps lookup }
    ensures readies { MakesColumnLive number texture.now lookup (S.view shelf.old)
        (S.view shelf.new) dir.now cache.old cache.new result }
    ensures hit { IsColumnLive number cache.old lookup →
        (result ≡ Ok tt) × (shelf.new ≡ shelf.old) }
{
    match lookup {
        ColumnLookup::Empty => Ok(()),
        ColumnLookup::Single { lump, place: _ } => {
            if is_lump_live(cache, lump) {
                return Ok(());
            }
            cache.fetch(shelf, dir, LumpNo(lump), Tag::Cache)
        }
        ColumnLookup::Composed { place: _ } => {
            if is_composite_live(cache, number) {
                return Ok(());
            }
            build_composite(texture, number, dir, cache, shelf)
        }
    }
}

// Asked of each strip of a wall, and nearly always so: a call of `fetch` would cost as much as some
// pixels.
#[inline(always)]
fn is_lump_live(cache: &LumpCache, lump: u16) -> bool
    requires { lump < cache.now.lumps }
    ensures { result ≡ is_live cache.now.blocks (lump_owner lump) }
{
    cache.bytes(LumpNo(lump)).is_some()
}

fn is_composite_live(cache: &LumpCache, number: u32) -> bool
    requires { number < cache.now.composites }
    ensures { result ≡ is_live cache.now.blocks (composite_owner number) }
{
    cache.composite(number).is_some()
}
