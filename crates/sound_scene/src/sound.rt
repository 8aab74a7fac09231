// A scene that passed its audit.
//
// Rules: `specs/Sound`; `scene_rules`, Sizes and SectorFlats. The original: the globals of p_setup.c
// and r_data.c.
ghost use Rattle.std.specs.Prelude.{◌≡◌, ◌<◌, length, map, option_map, IfOk};
ghost use Rattle.sound_scene.specs.Rules.{PALETTE_SIZE, art_of, needed_lumps, sector_at, sizes_of, surfaces_of, things_of};
ghost use Rattle.sound_scene.specs.Views.{lump_numbers};
ghost use Rattle.sound_scene.specs.Scenes.{scene_value};
ghost use Rattle.sound_scene.specs.Sound.{middles_of, textures_view};

use crate::needs::{Needed, find_needed};
use crate::parts::ReadScene;
use art_rules::OutOfMemory;
use level_scene::{Level, make_surfaces, sector_at};
use scene_rules::{PlacedThing, SectorFlats, SideTextures, Surface, ZoneSizes};
use sprite_book::SpriteBook;
use std::alloc::Global;
use std::marker::Model;
use texture_build::{Directory, LumpNo, TexNo, Textures};

/// A scene that passed its audit, with what the drawing layers borrow of it. Contracts see the scene,
/// the numbers of the lumps that it needs, and how large a zone has to be for them.
///
/// The original: the globals of p_setup.c, r_data.c and r_things.c.
pub struct SoundScene {
    scene: ReadScene,
    middles: Vec<u16>,
    surfaces: Vec<Surface>,
    needed: Needed,
}

// By hand, so that a drop of one is one call.
impl Drop for SoundScene {
    fn drop(self) {
        let SoundScene {
            scene: _,
            middles: _,
            surfaces: _,
            needed: _,
        } = self;
    }
}

impl Model for SoundScene {
    ghost use Rattle.std.specs.Prelude.{◌≡◌, length};
    ghost use Rattle.sound_scene.specs.Rules.{PALETTE_SIZE, surfaces_of};
    ghost use Rattle.sound_scene.specs.Scenes.{scene_value};
    ghost use Rattle.sound_scene.specs.Views.{lump_numbers};
    ghost use Rattle.sound_scene.specs.Sound.{SoundValue, middles_of};

    ghost Value = { SoundValue };

    ghost view = { λ s. record { scene = scene_value s.scene; named = lump_numbers s.needed.lumps.items; sizes = s.needed.sizes } };

    ghost invariant = { λ s.
        (s.middles.items ≡ middles_of s.scene.faces.sides.items)
        × (s.surfaces.items ≡ surfaces_of s.scene.base.level.sectors s.scene.faces.flats.items)
        × (length s.scene.base.palette.items ≡ PALETTE_SIZE) };
}

impl SoundScene {
    /// The scene with what is made of it once: the middle textures of its sides, the surfaces of its
    /// sectors, the lumps that it needs and the sizes of a zone for them. Takes memory for these.
    ///
    /// Errors: `OutOfMemory`. This project's own; `audit` of `level_audit` calls it.
    pub fn new(alloc: Global, dir: &Directory, scene: ReadScene) -> Result<SoundScene, OutOfMemory>
        requires flats { length scene.faces.flats.items ≡ length scene.base.level.sectors }
        requires colormap { scene.base.colormap.0 < length dir.now.lumps }
        requires palette { length scene.base.palette.items ≡ PALETTE_SIZE }
        ensures scene { IfOk result (λ sound. sound.scene ≡ scene_value scene) }
        ensures named { IfOk result (λ sound.
            sound.named ≡ needed_lumps dir.now.lumps (art_of (scene_value scene))) }
        ensures sizes { IfOk result (λ sound.
            sound.sizes ≡ sizes_of dir.now.lumps (scene_value scene)) }
    {
        let parts = make_parts(alloc, dir, &scene)?;
        Ok(SoundScene {
            scene,
            middles: parts.middles,
            surfaces: parts.surfaces,
            needed: parts.needed,
        })
    }

    /// The scene as it was read.
    ///
    /// This project's own.
    pub fn read(&self) -> &ReadScene
        ensures { scene_value result.now ≡ self.now.scene }
    {
        &self.scene
    }

    /// Replaces the needed lumps and the zone sizes.
    ///
    /// This project's own: weapon layers need the pictures of their frames too.
    pub fn set_needed(&mut self, needed: Needed)
        ensures { self.new ≡ record self.old
            { named = lump_numbers needed.lumps.items; sizes = needed.sizes } }
    {
        self.needed = needed;
    }

    /// The level. The original: the lists of p_setup.c.
    pub fn level(&self) -> &Level
        ensures { result.now ≡ self.now.scene.base.level }
    {
        &self.scene.base.level
    }

    /// The textures, with those prepared that a side or the sky shows.
    pub fn textures(&self) -> &Textures
        ensures { result.now ≡ textures_view self.now.scene }
    {
        &self.scene.base.textures
    }

    /// The pictures of the frames that the placed things need.
    pub fn sprites(&self) -> &SpriteBook
        ensures { result.now ≡ self.now.scene.book }
    {
        &self.scene.book
    }

    /// The numbers of the three textures of each side, in the order of the sides.
    ///
    /// The original: `toptexture` and its kin of `side_t`, r_defs.h.
    pub fn side_textures(&self) -> &[SideTextures]
        ensures { result.now ≡ self.now.scene.faces.sides }
    {
        &self.scene.faces.sides
    }

    /// The number of each side's middle texture, in the order of the sides.
    ///
    /// The original: `midtexture` of `side_t`, r_defs.h.
    pub fn middles(&self) -> &[u16]
        ensures { result.now ≡ middles_of self.now.scene.faces.sides }
    {
        &self.middles
    }

    /// The flats of each sector, in the order of the sectors.
    ///
    /// The original: `floorpic` and `ceilingpic` of `sector_t`, r_defs.h.
    pub fn flats(&self) -> &[SectorFlats]
        ensures { result.now ≡ self.now.scene.faces.flats }
    {
        &self.scene.faces.flats
    }

    /// The sectors as the drawing layers compare them, in their order: heights in map units (16.16
    /// fixed point), flats by the numbers of their lumps or 65536 for the sky, light.
    pub fn surfaces(&self) -> &[Surface]
        ensures { result.now ≡ surfaces_of self.now.scene.base.level.sectors
            self.now.scene.faces.flats }
    {
        &self.surfaces
    }

    /// The placed things of a sector in drawing order: the last of the lump first. There are none in
    /// a sector that is not there.
    ///
    /// The original: `thinglist` of `sector_t`, r_defs.h.
    pub fn things_of(&self, sector: u16) -> &[PlacedThing]
        ensures { result.now ≡ things_of self.now.scene.placed sector }
    {
        self.scene.placed.of(sector)
    }

    /// The sky's texture; `None` exactly where no floor and no ceiling is sky.
    ///
    /// The original: `skytexture`, r_sky.c.
    pub fn sky(&self) -> Option<TexNo>
        ensures { option_map (λ tex. tex.0) result ≡ self.now.scene.faces.sky }
    {
        self.scene.faces.sky
    }

    /// The lump of COLORMAP: the last of that name in the directory that the scene was read from
    /// (`audit`, `colormap`), and so one of its lumps.
    ///
    /// The original: `colormaps`, r_main.c, which `R_InitColormaps`, r_data.c, reads.
    pub fn colormap(&self) -> LumpNo
        ensures { result.0 ≡ self.now.scene.base.colormap }
    {
        self.scene.base.colormap
    }

    /// The first 768 bytes of PLAYPAL: red, green and blue of 256 colours.
    pub fn palette(&self) -> &[u8]
        ensures value { result.now ≡ self.now.scene.base.palette }
        ensures size { length result.now ≡ PALETTE_SIZE }
    {
        &self.scene.base.palette
    }

    /// How large a zone has to be, in bytes: `enough` that no drawing finds it full, `roomy` that no
    /// lump is read twice.
    pub fn sizes(&self) -> ZoneSizes
        ensures { result ≡ self.now.sizes }
    {
        self.needed.sizes
    }

    /// The lumps that the scene needs, ascending and each once.
    pub fn named(&self) -> &[LumpNo]
        ensures { lump_numbers result.now ≡ self.now.named }
    {
        &self.needed.lumps
    }

    /// The number of the sector at the point x, y (map units, 16.16 fixed point), which is there.
    ///
    /// The original: `R_PointInSubsector`, r_main.c.
    pub fn sector_at(&self, x: i32, y: i32) -> u16
        ensures value { result ≡ sector_at self.now.scene.base.level x y }
        ensures there { result < length self.now.scene.base.level.sectors }
    {
        sector_at(&self.scene.base.level, x, y)
    }
}

// What is made of a scene once.
#[derive(Drop)]
struct SceneParts {
    middles: Vec<u16>,
    surfaces: Vec<Surface>,
    needed: Needed,
}

// It owns no scene, since each `?` drops what its function owns.
fn make_parts(alloc: Global, dir: &Directory, scene: &ReadScene) -> Result<SceneParts, OutOfMemory>
    requires flats { length scene.now.faces.flats.items ≡ length scene.now.base.level.sectors }
    requires colormap { scene.now.base.colormap.0 < length dir.now.lumps }
    ensures middles { IfOk result (λ parts.
        parts.middles.items ≡ middles_of scene.now.faces.sides.items) }
    ensures surfaces { IfOk result (λ parts. parts.surfaces.items
        ≡ surfaces_of scene.now.base.level.sectors scene.now.faces.flats.items) }
    ensures named { IfOk result (λ parts. lump_numbers parts.needed.lumps.items
        ≡ needed_lumps dir.now.lumps (art_of (scene_value scene.now))) }
    ensures sizes { IfOk result (λ parts.
        parts.needed.sizes ≡ sizes_of dir.now.lumps (scene_value scene.now)) }
{
    Ok(SceneParts {
        needed: find_needed(alloc, dir, scene, scene.book.pictures())?,
        middles: middles_of(alloc, &scene.faces.sides)?,
        surfaces: make_surfaces(alloc, scene.base.level.sectors(), &scene.faces.flats)?,
    })
}

// The middle texture of each side.
fn middles_of(alloc: Global, sides: &[SideTextures]) -> Result<Vec<u16>, OutOfMemory>
    ensures { IfOk result (λ middles. middles.items ≡ middles_of sides.now) }
{
    sides.iter().map(middle_of).collect(alloc)
}

fn middle_of(side: &SideTextures) -> u16
    ensures { result ≡ side.now.middle }
{
    side.middle
}
