// What a seg is drawn from: rules `picture_rules`, Scene.
ghost use Rattle.std.specs.Prelude.{◌≡◌, ◌<◌, ℕ, List, length};
ghost use Rattle.picture_rules.specs.Words.{back_of, facts_of, IsSegIn, IsSound, seg_at, side_at, surface_at, textures_at, wall_texture};
ghost use Rattle.sound_scene.specs.Pictures.{lists_of, scene_of};

use picture_rules::{Seg, Side, SideTextures, Surface, WallFacts, WallTexture};
use sound_scene::SoundScene;
use texture_build::TexNo;

/// What seg `seg_no` is drawn from, seen from a sector: the seg, both sectors, the side's offsets
/// (texels, 16.16) and its textures.
///
/// The original: curline, frontsector, backsector and sidedef, r_bsp.c.
#[tactic(auto, unfolding(picture_rules::specs::Scene::facts_of, sound_scene::specs::Pictures::scene_of))]
pub fn facts_of(scene: &SoundScene, sector: u16, seg_no: u16) -> WallFacts
    requires sides { length scene.now.scene.faces.sides
        ≡ length scene.now.scene.base.level.sides }
    requires flats { length scene.now.scene.faces.flats
        ≡ length scene.now.scene.base.level.sectors }
    requires sector { sector < length scene.now.scene.base.level.sectors }
    requires seg { seg_no < length scene.now.scene.base.level.segs }
    ensures facts { (bytes : ℕ → List ℕ) → result ≡ facts_of (scene_of bytes scene.now.scene)
        (surface_at (lists_of scene.now.scene) sector) seg_no
        (seg_at (lists_of scene.now.scene) seg_no) }
    ensures sound { IsSound scene.now.scene.base.level }
{
    let segs = scene.level().segs().len();
    prove!(usize::from(seg_no) < segs);
    let seg = seg_at(scene, seg_no);
    let side = side_at(scene, seg.side);
    let textures = textures_at(scene, seg.side);
    WallFacts {
        seg_no,
        seg,
        front: surface_at(scene, sector),
        back: back_of(scene, seg),
        x_offset: side.x_offset,
        y_offset: side.y_offset,
        top: wall_texture(scene, textures.top),
        bottom: wall_texture(scene, textures.bottom),
        middle: wall_texture(scene, textures.middle),
    }
}

// A seg by its number, with its side and its sectors there.
#[tactic(auto, unfolding(picture_rules::specs::Words::seg_at))]
fn seg_at(scene: &SoundScene, seg_no: u16) -> Seg
    requires { seg_no < length scene.now.scene.base.level.segs }
    ensures seg { result ≡ seg_at (lists_of scene.now.scene) seg_no }
    ensures sound { IsSegIn scene.now.scene.base.level result }
{
    scene.level().segs()[seg_no as usize]
}

// The side of that number.
#[tactic(auto, unfolding(picture_rules::specs::Scene::side_at, sound_scene::specs::Pictures::scene_of))]
fn side_at(scene: &SoundScene, side: u16) -> &Side
    requires { side < length scene.now.scene.base.level.sides }
    ensures { (bytes : ℕ → List ℕ) → result.now ≡ side_at (scene_of bytes scene.now.scene) side }
{
    &scene.level().sides()[side as usize]
}

// The textures of the side of that number.
#[tactic(auto, unfolding(picture_rules::specs::Scene::textures_at, sound_scene::specs::Pictures::scene_of))]
fn textures_at(scene: &SoundScene, side: u16) -> SideTextures
    requires { side < length scene.now.scene.faces.sides }
    ensures { (bytes : ℕ → List ℕ) → result ≡ textures_at (scene_of bytes scene.now.scene) side }
{
    scene.side_textures()[side as usize]
}

// The sector of that number.
#[tactic(auto, using(sound_scene::proofs::SurfaceLemmas::surface_counts), unfolding(picture_rules::specs::Words::surface_at))]
pub(crate) fn surface_at(scene: &SoundScene, sector: u16) -> Surface
    requires flats { length scene.now.scene.faces.flats
        ≡ length scene.now.scene.base.level.sectors }
    requires sector { sector < length scene.now.scene.base.level.sectors }
    ensures { result ≡ surface_at (lists_of scene.now.scene) sector }
{
    scene.surfaces()[sector as usize]
}

// The sector behind a seg.
#[tactic(auto, unfolding(picture_rules::specs::Words::back_of))]
fn back_of(scene: &SoundScene, seg: Seg) -> Option<Surface>
    requires flats { length scene.now.scene.faces.flats
        ≡ length scene.now.scene.base.level.sectors }
    requires seg { IsSegIn scene.now.scene.base.level seg }
    ensures { result ≡ back_of (lists_of scene.now.scene) seg }
{
    match seg.back {
        Some(back) => Some(surface_at(scene, back)),
        None => None,
    }
}

// A texture of a side, with its height; 0 for a number that is no texture's.
#[tactic(auto, unfolding(picture_rules::specs::Scene::wall_texture, sound_scene::specs::Pictures::scene_of))]
fn wall_texture(scene: &SoundScene, number: u16) -> WallTexture
    ensures { (bytes : ℕ → List ℕ) →
        result ≡ wall_texture (scene_of bytes scene.now.scene) number }
{
    let height = if u32::from(number) < scene.textures().count() {
        scene.textures().height(TexNo(number))
    } else {
        0
    };
    WallTexture { number, height }
}
