// Why there is no level, or no part of a scene.
ghost use Rattle.std.specs.Prelude.{◌≡◌};
ghost use Rattle.art_rules.specs.Words.{IsAboveBy};
ghost use Rattle.level_scene.specs.Faults.{map_fault, scene_fault};
ghost use Rattle.level_scene.specs.declared.fault.SceneFault.TheVariants.{OutOfMemory, Refused};

use art_rules::Fault;
use map_lumps::{MapFault, MapRefusal};
use scene_rules::SceneRefusal;
use std::alloc::{AllocError, AllocFailed};
use thiserror::Error;

/// Why a level is not read: the first refusal of its map, a read that failed, a zone without room
/// for a lump, or out of memory.
pub type LevelFault = Fault<MapRefusal>;

/// A fault of a map as that of a level.
pub(crate) fn map_fault(fault: MapFault) -> LevelFault
    ensures { result ≡ map_fault fault }
{
    match fault {
        MapFault::Refused(refusal) => Fault::Refused(refusal),
        MapFault::OutOfMemory => Fault::OutOfMemory,
    }
}

/// Why a part of a scene is not made: what it lacks, or out of memory.
#[derive(Clone, Copy, Debug, PartialEq, Eq, Drop, Error)]
pub enum SceneFault {
    #[error("{0}")]
    Refused(SceneRefusal),
    #[error("out of memory")]
    OutOfMemory,
}

impl SceneFault {
    /// The same fault, with its refusal as a layer above names it.
    pub fn above<Q, F: FnOnce(SceneRefusal) -> Q>(self, lift: F) -> Fault<Q>
        requires { F.IsAlwaysCallable lift }
        ensures { IsAboveBy (F.post lift) (scene_fault self) result }
    {
        match self {
            SceneFault::Refused(refusal) => Fault::Refused(lift(refusal)),
            SceneFault::OutOfMemory => Fault::OutOfMemory,
        }
    }
}

impl From<SceneRefusal> for SceneFault {
    ghost from_gives = { λ refusal fault. fault ≡ Refused refusal };

    fn from(refusal: SceneRefusal) -> Self {
        SceneFault::Refused(refusal)
    }
}

impl From<AllocError> for SceneFault {
    ghost from_gives = { λ _ fault. fault ≡ OutOfMemory };

    fn from(_: AllocError) -> Self {
        SceneFault::OutOfMemory
    }
}

impl<T: Drop> From<AllocFailed<T>> for SceneFault {
    ghost from_gives = { λ _ fault. fault ≡ OutOfMemory };

    fn from(_: AllocFailed<T>) -> Self {
        SceneFault::OutOfMemory
    }
}
