// That a scene and a workshop keep no copy of art: with one of each, a view is drawn over the made
// WAD of 1, over that WAD with other texels, and over the first again, each on its own shelf, with
// its own directory and its own cache.
//
// The sums are values from outside, FNV-1a of a frame's 64,000 bytes: those of the first view over
// each WAD. Each function owns one or two values and lends them to the next, each in a box, which
// one call drops: one that owns many where it may return takes minutes to prove.
ghost use Rattle.std.specs.Prelude.{◌≡◌, ◌≤◌, ◌<◌, ◌^◌, IfOk, length};
ghost use Rattle.frame_core.specs.Views.{CanDrawView, IsDrawable};
ghost use Rattle.whole_tests.specs.declared.tests.made.TheConstants.{COMPOSITE_SLOTS};

use crate::tests::made::{FIRST, directory_of, empty_cache, made_angles, shelf_of};
use csv_tables::ThingTable;
use frame_core::{Limits, ViewFault, Workshop, draw_view};
use level_audit::audit;
use level_maker::{make_things, make_wad};
use lump_cache::{Directory, LumpCache, MemoryShelf, Name8, Tag};
use pixel_strips::FLAT_BYTES;
use sound_scene::SoundScene;
use std::alloc::Global;
use std::test::Fail;
use test_files::sum_of;
use view_frame::Tables;

const FIRST_SUM: u64 = 0x2b08_c9ba_b7db_3cb6;

// The sum over the other texels.
const OTHER_SUM: u64 = 0x212f_4047_28bc_b877;

const LIMITS: Limits = Limits {
    planes: 128,
    openings: 20480,
};

// What comes of a view: the sum of its frame.
type Sum = Result<u64, ViewFault>;

// Makes each byte b of a part of a file 255 - b.
fn turn(bytes: &mut [u8], first: u64, count: u64) {
    for i in 0..count {
        if let Some(byte) = bytes.get_mut(first.wrapping_add(i) as usize) {
            *byte = !*byte;
        }
    }
}

// Turns the texels of a patch that begins at `start`, whose columns have as many posts each, all of
// so many rows.
fn turn_patch(bytes: &mut [u8], start: u64, columns: u16, posts: u8, rows: u8) {
    let head = start.wrapping_add(8 + 4 * columns as u64);
    for x in 0..columns {
        let column = ((rows as u64 + 4) * posts as u64 + 1) * x as u64;
        for post in 0..posts {
            let texels = column + (rows as u64 + 4) * post as u64 + 3;
            turn(bytes, head.wrapping_add(texels), rows as u64);
        }
    }
}

// Where a lump of that name begins in its file.
fn place_of(dir: &Directory, name: &str) -> Option<u64> {
    let lump = dir.last(&Name8::from_text(name)?)?;
    Some(dir.place(lump) as u64)
}

// Turns the texels of the made WAD: those of its flats, of its walls, grate and sky, and of its thing.
fn turn_texels(dir: &Directory, bytes: &mut [u8]) -> Option<()> {
    for name in ["FLAT0", "FLAT1", "FLAT2", "FLAT3"] {
        turn(bytes, place_of(dir, name)?, FLAT_BYTES as u64);
    }
    turn_patch(bytes, place_of(dir, "WPATA")?, 64, 1, 128);
    turn_patch(bytes, place_of(dir, "WPATB")?, 32, 1, 128);
    turn_patch(bytes, place_of(dir, "GRATP")?, 64, 2, 32);
    turn_patch(bytes, place_of(dir, "SKYP")?, 256, 1, 128);
    turn_patch(bytes, place_of(dir, "TREEA0")?, 32, 1, 64);
    Some(())
}

// The scene of the made map.
fn scene_of(
    alloc: Global,
    dir: &Directory,
    cache: &mut LumpCache,
    shelf: &mut MemoryShelf,
) -> Result<Box<SoundScene>, Fail>
    requires few { length dir.now.lumps < 2 ^ 16 }
    requires slots { length dir.now.lumps ≤ cache.old.lumps }
    requires composites { cache.old.composites ≡ COMPOSITE_SLOTS }
    ensures drawable { IfOk result (λ scene.
        CanDrawView dir.now.lumps scene.value.scene cache.new) }
    ensures composites { cache.new.composites ≡ COMPOSITE_SLOTS }
{
    let bytes = make_things(alloc)?;
    let things = Box::new(alloc, ThingTable::read(alloc, &bytes)?)?;
    let map = Name8::from_text("MAP01").ok_or("a name")?;
    Ok(Box::new(alloc, audit(alloc, dir, cache, shelf, &things, &map, 3)?)?)
}

// The WAD with other texels, on a shelf of its own.
fn turned_shelf(alloc: Global, dir: &Directory) -> Result<Box<MemoryShelf>, Fail> {
    let mut wad = make_wad(alloc, 1)?;
    turn_texels(dir, &mut wad).ok_or("a lump")?;
    shelf_of(alloc, wad)
}

// A cache for the scene over another shelf, with the colormap of that shelf.
fn turned_cache(
    alloc: Global,
    dir: &Directory,
    scene: &SoundScene,
    shelf: &mut MemoryShelf,
) -> Result<Box<LumpCache>, Fail>
    requires few { length dir.now.lumps < 2 ^ 16 }
    requires drawable { IsDrawable dir.now.lumps scene.now.scene }
    requires colormap { scene.now.scene.base.colormap < length dir.now.lumps }
    requires textures { length scene.now.scene.base.lists.textures ≤ COMPOSITE_SLOTS }
    ensures { IfOk result (λ cache. CanDrawView dir.now.lumps scene.now.scene cache.value) }
{
    let mut cache = empty_cache(alloc, dir)?;
    cache.fetch(shelf, dir, scene.colormap(), Tag::Static)?;
    Ok(cache)
}

// What views are drawn with.
#[derive(Drop)]
struct Tools {
    tables: Box<Tables>,
    shop: Box<Workshop>,
}

fn made_tools(alloc: Global) -> Result<Tools, Fail> {
    let tables = made_angles(alloc)?;
    let shop = Box::new(alloc, Workshop::new(alloc, LIMITS)?)?;
    Ok(Tools { tables, shop })
}

// Draws the first view of the scene in the workshop.
fn draw(
    scene: &SoundScene,
    dir: &Directory,
    cache: &mut LumpCache,
    shelf: &mut MemoryShelf,
    tools: &mut Tools,
) -> Sum
    requires { CanDrawView dir.now.lumps scene.now.scene cache.old }
    ensures { CanDrawView dir.now.lumps scene.now.scene cache.new }
{
    let shop = &mut tools.shop;
    draw_view(scene, &tools.tables, shop, cache, dir, shelf, FIRST)?;
    Ok(sum_of(tools.shop.frame()))
}

// The sums over the shelf, over the other one, and over the first again.
type Sums = [Sum; 3];

fn sums(alloc: Global) -> Result<Sums, Fail> {
    let mut shelf = shelf_of(alloc, make_wad(alloc, 1)?)?;
    let dir = directory_of(alloc, &mut shelf)?;
    sums_over(alloc, &dir, &mut shelf)
}

// The same, with the lumps of this directory.
fn sums_over(alloc: Global, dir: &Directory, shelf: &mut MemoryShelf) -> Result<Sums, Fail>
    requires { length dir.now.lumps < 2 ^ 16 }
{
    let mut cache = empty_cache(alloc, dir)?;
    let scene = scene_of(alloc, dir, &mut cache, shelf)?;
    sums_of(alloc, &scene, dir, &mut cache, shelf)
}

// The same, of this scene.
fn sums_of(
    alloc: Global,
    scene: &SoundScene,
    dir: &Directory,
    cache: &mut LumpCache,
    shelf: &mut MemoryShelf,
) -> Result<Sums, Fail>
    requires drawable { CanDrawView dir.now.lumps scene.now.scene cache.old }
    requires composites { cache.old.composites ≡ COMPOSITE_SLOTS }
{
    let mut other = turned_shelf(alloc, dir)?;
    let turned = directory_of(alloc, &mut other)?;
    if turned.count() != dir.count() {
        return Err("as many lumps".into());
    }
    let mut beside = turned_cache(alloc, &turned, scene, &mut other)?;
    let mut tools = made_tools(alloc)?;
    Ok([
        draw(scene, dir, cache, shelf, &mut tools),
        draw(scene, &turned, &mut beside, &mut other, &mut tools),
        draw(scene, dir, cache, shelf, &mut tools),
    ])
}

#[test]
fn a_scene_and_a_workshop_keep_no_copy_of_art(rt: HostRuntime) -> Result<(), Fail> {
    assert_eq!(rt;
        sums(rt.alloc())?,
        [Ok(FIRST_SUM), Ok(OTHER_SUM), Ok(FIRST_SUM)]
    );
    Ok(())
}
