// What ends a view.
//
// Rules: `specs/Faults`; `picture_rules`, Counts. The original: `I_Error`, i_system.c.
ghost use Rattle.std.specs.Prelude.{◌≡◌, Some};
ghost use Rattle.wall_columns.specs.Faults.{over_in};
ghost use Rattle.frame_core.specs.Faults.{from_cache, from_stop};

use picture_rules::{LimitKind, OverLimit};
use std::convert::Infallible;
use texture_build::CacheFault;
use thiserror::Error;
use wall_columns::WallStop;

/// What ends a view: its planes or its openings past their limit, with the first count that is; a
/// zone without a gap for a block of `wanted` bytes, whose widest gap has `widest`; bytes that were
/// not read.
///
/// The original: `I_Error` of `R_FindPlane` and `R_DrawPlanes`, r_plane.c, and of `Z_Malloc`,
/// z_zone.c.
#[derive(Clone, Copy, Debug, PartialEq, Eq, Error)]
pub enum ViewFault {
    #[error("a limit of the view is passed: {kind:?} {count}")]
    Limit { kind: LimitKind, count: u32 },
    #[error("the zone is full: a block of {wanted} bytes was wanted, the widest gap has {widest}")]
    ZoneFull { wanted: u64, widest: u64 },
    #[error("a lump could not be read")]
    ReadFault,
}

impl From<CacheFault> for ViewFault {
    ghost from_gives = { λ below fault. fault ≡ from_cache below };

    fn from(fault: CacheFault) -> Self {
        match fault {
            CacheFault::ZoneFull { wanted, widest } => ViewFault::ZoneFull { wanted, widest },
            CacheFault::ReadFault => ViewFault::ReadFault,
        }
    }
}

impl From<WallStop<CacheFault>> for ViewFault {
    ghost from_gives = { λ stop fault. fault ≡ from_stop stop };

    fn from(stop: WallStop<CacheFault>) -> Self {
        match stop {
            WallStop::Over(over) => ViewFault::Limit {
                kind: over.kind,
                count: over.count,
            },
            WallStop::Brush(fault) => ViewFault::from(fault),
        }
    }
}

/// The limit that ended a count of a view, whose brush never stops.
pub(crate) fn over_limit(stop: WallStop<Infallible>) -> OverLimit
    ensures { over_in stop ≡ Some result }
{
    match stop {
        WallStop::Over(over) => over,
        WallStop::Brush(never) => match never {},
    }
}
