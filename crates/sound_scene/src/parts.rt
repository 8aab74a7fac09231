// The parts of a scene, as they are read.
//
// Rules: `scene_rules`, Scenes; `specs/Bases` and `specs/Scenes`. The original: the globals of
// p_setup.c and r_data.c.
use level_scene::{Level, PlacedThings};
use scene_rules::{SectorFlats, SideTextures};
use sprite_book::SpriteBook;
use texture_build::{LumpNo, TexNo, Textures};

/// What a level stands on: the lumps of colours, the first palette, the label of the map, the level,
/// and the lists of textures, none of which is prepared yet.
///
/// The original: the globals that `R_InitData`, r_data.c, and `P_SetupLevel`, p_setup.c, set.
pub struct ReadBase {
    pub colormap: LumpNo,
    pub playpal: LumpNo,
    pub palette: Vec<u8>,
    pub label: LumpNo,
    pub level: Level,
    pub textures: Textures,
}

// By hand, so that a drop of one is one call.
impl Drop for ReadBase {
    fn drop(self) {
        let ReadBase {
            colormap: _,
            playpal: _,
            palette: _,
            label: _,
            level: _,
            textures: _,
        } = self;
    }
}

/// What the names in a level mean: the numbers of the textures of its sides, its sky, and the flats
/// of its sectors, in the order of their lumps.
///
/// The original: `textures` of `side_t`, `skytexture`, `floorpic` and `ceilingpic` of `sector_t`.
#[derive(Drop)]
pub struct ReadFaces {
    pub sides: Vec<SideTextures>,
    pub sky: Option<TexNo>,
    pub flats: Vec<SectorFlats>,
}

/// A scene: its base with the wanted textures prepared, what the names in the level mean, the
/// things that stand there, and the pictures of the frames that they need.
///
/// The original: the globals that `P_SetupLevel`, p_setup.c, and `R_PrecacheLevel`, r_data.c, set.
pub struct ReadScene {
    pub base: ReadBase,
    pub faces: ReadFaces,
    pub placed: PlacedThings,
    pub book: SpriteBook,
}

// By hand, so that a drop of one is one call.
impl Drop for ReadScene {
    fn drop(self) {
        let ReadScene {
            base: _,
            faces: _,
            placed: _,
            book: _,
        } = self;
    }
}
