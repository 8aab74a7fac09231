// The lumps that a scene needs with these pictures, and how large a zone has to be for them.
//
// Rules: `scene_rules`, Sizes. The original: `R_PrecacheLevel`, r_data.c, which reads them.
ghost use Rattle.std.specs.Prelude.{◌≡◌, ◌<◌, length, IfOk};
ghost use Rattle.scene_rules.specs.Words.{needed_lumps, zone_sizes};
ghost use Rattle.sound_scene.specs.Views.{lump_numbers};
ghost use Rattle.sound_scene.specs.Scenes.{scene_value};
ghost use Rattle.sound_scene.specs.Sound.{art_with};

use crate::needed::{NeededArt, needed_lumps};
use crate::parts::ReadScene;
use crate::sizes::zone_sizes;
use art_rules::OutOfMemory;
use scene_rules::ZoneSizes;
use std::alloc::Global;
use texture_build::{Directory, LumpNo};

/// The numbers of the lumps that are needed, ascending, and the sizes of a zone for them, in bytes.
///
/// This project's own.
pub struct Needed {
    pub lumps: Vec<LumpNo>,
    pub sizes: ZoneSizes,
}

// By hand, so that a drop of one is one call.
impl Drop for Needed {
    fn drop(self) {
        let Needed { lumps: _, sizes: _ } = self;
    }
}

/// What a scene needs, with the pictures of these lumps, and the sizes of a zone for it.
///
/// Takes memory for the result, and a byte for each lump of the directory while it runs.
///
/// Errors: `OutOfMemory`. This project's own; the lumps are those that `R_PrecacheLevel`, r_data.c,
/// reads, and those of the level itself.
pub fn find_needed(
    alloc: Global,
    dir: &Directory,
    scene: &ReadScene,
    pictures: &[LumpNo],
) -> Result<Needed, OutOfMemory>
    requires { scene.now.base.colormap.0 < length dir.now.lumps }
    ensures lumps { IfOk result (λ needed.
        lump_numbers needed.lumps.items ≡ needed_lumps dir.now.lumps
        (art_with (scene_value scene.now) (lump_numbers pictures.now))) }
    ensures sizes { IfOk result (λ needed.
        needed.sizes ≡ zone_sizes dir.now.lumps
        (art_with (scene_value scene.now) (lump_numbers pictures.now))) }
{
    let art = NeededArt {
        colormap: scene.base.colormap,
        playpal: scene.base.playpal,
        label: scene.base.label,
        textures: &scene.base.textures,
        flats: &scene.faces.flats,
        pictures,
    };
    let lumps = needed_lumps(alloc, dir, &art)?;
    let sizes = zone_sizes(dir, &art, &lumps);
    Ok(Needed { lumps, sizes })
}
