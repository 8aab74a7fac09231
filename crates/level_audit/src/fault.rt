// Why a level is not accepted.
ghost use Rattle.std.specs.Prelude.{◌≡◌};
ghost use Rattle.level_audit.specs.Rules.{Map, Sprite, fault_above};
ghost use Rattle.scene_rules.specs.declared.refusal.AuditRefusal.TheVariants.{Texture};
ghost use Rattle.level_audit.specs.Faults.{above_scene};

use art_rules::Fault;
use level_scene::{LevelFault, SceneFault};
use scene_rules::AuditRefusal;
use sprite_book::SpriteFault;
use texture_lists::TexFault;

/// Why a level is not accepted: the first refusal of its lumps, a read that failed, a zone without
/// room for a lump, or out of memory.
pub type AuditFault = Fault<AuditRefusal>;

/// A fault of a part of a scene as that of an audit.
pub(crate) fn above_scene(fault: SceneFault) -> AuditFault
    ensures { result ≡ above_scene fault }
{
    fault.above(AuditRefusal::Scene)
}

/// A fault of a level as that of an audit.
pub(crate) fn above_level(fault: LevelFault) -> AuditFault
    ensures { result ≡ fault_above Map fault }
{
    fault.above(AuditRefusal::Map)
}

/// A fault of textures as that of an audit.
pub(crate) fn above_textures(fault: TexFault) -> AuditFault
    ensures { result ≡ fault_above Texture fault }
{
    fault.above(AuditRefusal::Texture)
}

/// A fault of sprites as that of an audit.
pub(crate) fn above_sprites(fault: SpriteFault) -> AuditFault
    ensures { result ≡ fault_above Sprite fault }
{
    fault.above(AuditRefusal::Sprite)
}
