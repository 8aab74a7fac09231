// Why there is no level.
ghost use Rattle.std.specs.Prelude.{◌≡◌};
ghost use Rattle.map_lumps.specs.declared.fault.MapFault.TheVariants.{OutOfMemory};

use level_rules::MapRefusal;
use std::alloc::{AllocError, AllocFailed};
use thiserror::Error;

/// Why `LevelBuilder` does not take a lump, or gives no level.
///
/// - `Refused`: the map's bytes are refused, for the reason given.
/// - `OutOfMemory`: there is not enough memory. It says nothing of the bytes.
#[derive(Clone, Copy, Debug, PartialEq, Eq, Drop, Error)]
pub enum MapFault {
    #[error("{0}")]
    Refused(MapRefusal),
    #[error("out of memory")]
    OutOfMemory,
}

impl From<AllocError> for MapFault {
    ghost from_gives = { λ _ e. e ≡ OutOfMemory };

    fn from(_e: AllocError) -> MapFault {
        MapFault::OutOfMemory
    }
}

impl<T: Drop> From<AllocFailed<T>> for MapFault {
    ghost from_gives = { λ _ e. e ≡ OutOfMemory };

    fn from(_e: AllocFailed<T>) -> MapFault {
        MapFault::OutOfMemory
    }
}
