// The last checks of a scene: no thing that would be a shadow, and masked mid textures of single
// columns.
//
// Rules: `scene_rules`, Scenes (`checked`), Middles. The original: `MF_SHADOW`, p_mobj.h;
// `R_RenderMaskedSegRange`, r_segs.c. This project's own: such a level is refused.
ghost use Rattle.level_scene.specs.Faults.{scene_fault};
ghost use Rattle.level_audit.specs.Rules.{ResultIs, bad_middle, checked, texture_by};
ghost use Rattle.sound_scene.specs.Whole.{IsMiddleSingle};
ghost use Rattle.std.specs.Prelude.{◌≡◌, ◌<◌, ◌^◌, ◌⊎◌, true, All, length, OnOk};
ghost use Rattle.texture_build.specs.Views.{IsPrepared};

use crate::SceneRefusal;
use crate::middles::find_bad_middle;
use level_scene::{PlacedThings, SceneFault};
use scene_rules::{Seg, SideTextures};
use std::alloc::Global;
use texture_build::Textures;

// The first of the last checks that refuses, if one does. If none does, the middles of segs with a
// sector behind them are of single columns (`middles`).
#[tactic(auto, unfolding(scene_rules::specs::Scenes::checked, scene_rules::specs::Numbered::refuse_if))]
pub(crate) fn check_scene(
    alloc: Global,
    placed: &PlacedThings,
    textures: &Textures,
    segs: &[Seg],
    sides: &[SideTextures],
) -> Result<(), SceneFault>
    requires few { length sides.now < 2 ^ 16 }
    requires middles { All (λ side. (side.middle ≡ 0) ⊎
        IsPrepared textures.now side.middle) sides.now }
    ensures value { ResultIs scene_fault true (λ done.
        done) (checked placed.now
        (bad_middle (texture_by textures.now.prepared) segs.now sides.now)) result }
    ensures middles { OnOk result (All (IsMiddleSingle textures.now sides.now) segs.now) }
{
    if let Some(thing) = placed.first_shadow() {
        return Err(SceneFault::Refused(SceneRefusal::Shadow {
            thing: thing as u64,
        }));
    }
    if let Some(side) = find_bad_middle(alloc, textures, segs, sides)? {
        return Err(SceneFault::Refused(SceneRefusal::Middle { side: side as u64 }));
    }
    Ok(())
}
