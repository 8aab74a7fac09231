// What the names in a level mean.
//
// Rules: `scene_rules`, Scenes (`faces_in`). The original: `P_LoadSideDefs` and `P_LoadSectors`,
// p_setup.c.
ghost use Rattle.std.specs.Prelude.{◌≡◌, ◌<◌, true, All, length, IfOk, IfSome};
ghost use Rattle.level_audit.specs.Rules.{ResultIs, faces_in};
ghost use Rattle.level_scene.specs.Bounds.{AreBelow, AreThere};
ghost use Rattle.level_scene.specs.Faults.{scene_fault};
ghost use Rattle.sound_scene.specs.Scenes.{faces_of};

use art_rules::Name8;
use level_scene::{Level, SceneFault, find_flats, find_sky, number_sides};
use sound_scene::ReadFaces;
use std::alloc::Global;
use texture_build::{Directory, ListedTextures};
use texture_lists::TexNo;

// The faces of a level: textures of sides, sky, flats. The first refusal comes, in this order.
#[tactic(auto, unfolding(scene_rules::specs::Scenes::faces_in))]
pub(crate) fn find_faces(
    alloc: Global,
    name: &Name8,
    dir: &Directory,
    level: &Level,
    lists: &ListedTextures,
) -> Result<ReadFaces, SceneFault>
    ensures answers { ResultIs scene_fault true faces_of
        (faces_in dir.now.lumps name.now level.now lists.now) result }
    ensures sides { IfOk result (λ faces. length faces.sides.items ≡ length level.now.sides) }
    ensures flats { IfOk result (λ faces. length faces.flats.items ≡ length level.now.sectors) }
    ensures below { IfOk result (λ faces.
        All (AreBelow (length lists.now.textures)) faces.sides.items) }
    ensures sky { IfOk result (λ faces.
        IfSome faces.sky (λ tex. tex.0 < length lists.now.textures)) }
    ensures there { IfOk result (λ faces. All (AreThere (length dir.now.lumps)) faces.flats.items) }
{
    let sides = number_sides(alloc, lists, level.sides())?;
    let sky = find_sky(lists, name, level.sectors())?;
    let flats = find_flats(alloc, dir, level.sectors())?;
    Ok(ReadFaces { sides, sky, flats })
}
