// A bare window over the whole width of a view, seen from above its ceiling: what it saves, fragment
// after fragment.
//
// Each function makes a few values and lends them to the next, and the one that draws owns none: a
// function that owns many where it may return takes minutes to prove.
ghost use Rattle.std.specs.Prelude.{◌≡◌, ◌<◌, ◌≤◌, ◌^◌, length};

use crate::tests::made::{EYE, directory_of, empty_cache, made_angles, shelf_of};
use crate::tests::wall_edges_tests::{BARE, ROOM, WALL};
use level_maker::make_wad;
use lump_cache::{Directory, LumpCache, LumpNo, MemoryShelf, Name8};
use picture_rules::{Eye, WallFacts};
use pixel_strips::{Canvas, Frame};
use std::alloc::Global;
use std::test::Fail;
use texture_build::{TexNo, Textures};
use view_frame::View;
use visplanes::Planes;
use wall_columns::{DrawFault, LeafPlanes, WallState, WallTools};

const ABOVE: Eye = Eye {
    z: 200 << 16,
    ..EYE
};

const WINDOW: WallFacts = WallFacts {
    back: Some(ROOM),
    middle: BARE,
    ..WALL
};

const NO_PLANES: LeafPlanes = LeafPlanes {
    floor: None,
    ceiling: None,
};

// The room for openings, and that for planes.
const OPENINGS: u32 = 20480;

const PLANES: u32 = 128;

// The texture WALL1 of the made WAD.
const WALL1: TexNo = TexNo(1);

// How many openings and planes there are, or which limit was passed.
type Saved = Result<(usize, u32), DrawFault>;

// What walls are drawn on.
#[derive(Drop)]
struct Drawn<'a> {
    walls: &'a mut WallState,
    planes: &'a mut Planes,
    frame: &'a mut Frame,
}

// What they are drawn from.
#[derive(Clone, Copy)]
struct Art<'a> {
    dir: &'a Directory,
    textures: &'a Textures,
    colormap: LumpNo,
}

// What the window saves that is drawn so many times.
fn saved(alloc: Global, times: u8) -> Result<Saved, Fail> {
    let tables = made_angles(alloc)?;
    saved_by(alloc, &View::new(&tables, ABOVE), times)
}

// The same, by this view.
fn saved_by(alloc: Global, view: &View<'_>, times: u8) -> Result<Saved, Fail> {
    let mut frame = Frame::new(alloc)?;
    let mut planes = Planes::new(alloc, PLANES)?;
    let mut walls = WallState::new(alloc, OPENINGS)?;
    let mut drawn = Drawn {
        walls: &mut walls,
        planes: &mut planes,
        frame: &mut frame,
    };
    saved_on(alloc, view, &mut drawn, times)
}

// The same, drawn on these.
fn saved_on(
    alloc: Global,
    view: &View<'_>,
    drawn: &mut Drawn<'_>,
    times: u8,
) -> Result<Saved, Fail> {
    let mut shelf = shelf_of(alloc, make_wad(alloc, 1)?)?;
    let dir = directory_of(alloc, &mut shelf)?;
    saved_over(alloc, view, drawn, &dir, &mut shelf, times)
}

// The same, with the lumps of this directory.
fn saved_over(
    alloc: Global,
    view: &View<'_>,
    drawn: &mut Drawn<'_>,
    dir: &Directory,
    shelf: &mut MemoryShelf,
    times: u8,
) -> Result<Saved, Fail>
    requires { length dir.now.lumps < 2 ^ 16 }
{
    let colormap = dir.last(&Name8::from_text("COLORMAP").ok_or("a name")?);
    let colormap = colormap.ok_or("a colormap")?;
    let mut cache = empty_cache(alloc, dir)?;
    let textures = Box::new(alloc, Textures::load(alloc, dir, &mut cache, shelf)?)?;
    let art = Art {
        dir: &*dir,
        textures: &textures,
        colormap,
    };
    Ok(draw(view, drawn, &art, &mut cache, shelf, times))
}

// Draws the window so many times.
fn draw(
    view: &View<'_>,
    drawn: &mut Drawn<'_>,
    art: &Art<'_>,
    cache: &mut LumpCache,
    shelf: &mut MemoryShelf,
    times: u8,
) -> Saved
    requires slots { length art.now.dir.now.lumps ≤ cache.old.lumps }
    requires colormap { art.now.colormap.0 < length art.now.dir.now.lumps }
{
    let shape = view.shape();
    drawn.frame.place(shape.left, shape.top);
    drawn.walls.start_view(shape.height);
    drawn.walls.start_leaf(drawn.planes, NO_PLANES)?;
    for _ in 0..times {
        let mut tools = WallTools {
            view: &*view,
            textures: art.textures,
            cache: &mut *cache,
            dir: art.dir,
            shelf: &mut *shelf,
            planes: &mut *drawn.planes,
            canvas: &mut *drawn.frame,
            colormap: art.colormap,
        };
        drawn
            .walls
            .store_range(&mut tools, &WINDOW, 0, shape.width - 1)?;
    }
    Ok((drawn.walls.openings().len(), drawn.planes.count()))
}

#[test]
fn openings_past_the_room_are_told_with_their_sum(rt: HostRuntime) -> Result<(), Fail> {
    let most = saved(rt.alloc(), 64)?;
    let past = saved(rt.alloc(), 65)?;
    let full = DrawFault::Openings { count: 20800 };
    assert_eq!(rt; (most, past), (Ok((20480, 0)), Err(full)));
    Ok(())
}

// The column of the texture that a column of the wall stands for.
fn masked(alloc: Global, shelf: &mut MemoryShelf, column: u16) -> Result<u16, Fail> {
    let dir = directory_of(alloc, shelf)?;
    let mut cache = empty_cache(alloc, &dir)?;
    let textures = Box::new(alloc, Textures::load(alloc, &dir, &mut cache, shelf)?)?;
    if textures.count() != 5 {
        return Err("five textures".into());
    }
    Ok(column & textures.mask(WALL1))
}

#[test]
fn a_wall_repeats_its_texture(rt: HostRuntime) -> Result<(), Fail> {
    let mut shelf = shelf_of(rt.alloc(), make_wad(rt.alloc(), 1)?)?;
    assert_eq!(rt; masked(rt.alloc(), &mut shelf, 255)?, 63);
    Ok(())
}
