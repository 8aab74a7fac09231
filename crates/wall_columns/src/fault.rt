// What ends a view while its walls are drawn.
ghost use Rattle.std.specs.Prelude.{◌≡◌};
ghost use Rattle.wall_columns.specs.Faults.{from_cache_fault, from_over, from_stop};

use picture_rules::{LimitKind, OverLimit};
use texture_build::CacheFault;
use thiserror::Error;

/// What ends a view while its walls are drawn: planes or openings past their limit, with the count;
/// a zone without a gap for a block of `wanted` bytes, whose widest gap has `widest`; bytes that
/// were not read.
///
/// The original: `I_Error` of `R_FindPlane` and `R_DrawPlanes`, r_plane.c.
#[derive(Clone, Copy, Debug, PartialEq, Eq, Error)]
pub enum DrawFault {
    #[error("the view has {count} visplanes, one more than there is room for")]
    Planes { count: u32 },
    #[error("the view saves {count} openings, more than there is room for")]
    Openings { count: u32 },
    #[error("the zone is full: a block of {wanted} bytes was wanted, the widest gap has {widest}")]
    ZoneFull { wanted: u64, widest: u64 },
    #[error("a lump could not be read")]
    ReadFault,
}

impl From<CacheFault> for DrawFault {
    ghost from_gives = { λ below fault. fault ≡ from_cache_fault below };

    fn from(fault: CacheFault) -> Self {
        match fault {
            CacheFault::ZoneFull { wanted, widest } => DrawFault::ZoneFull { wanted, widest },
            CacheFault::ReadFault => DrawFault::ReadFault,
        }
    }
}

/// What ends a view while a brush paints its walls: a count past its limit, or the Stop of the brush.
///
/// This project's own.
#[derive(Drop)]
pub enum WallStop<E> {
    Over(OverLimit),
    Brush(E),
}

impl<E> From<OverLimit> for WallStop<E> {
    ghost use Rattle.wall_columns.specs.declared.fault.WallStop.{WallStop};

    ghost from_gives = { λ over stop. stop ≡ WallStop.Over over };

    fn from(over: OverLimit) -> Self {
        WallStop::Over(over)
    }
}

impl From<OverLimit> for DrawFault {
    ghost from_gives = { λ over fault. fault ≡ from_over over };

    fn from(over: OverLimit) -> Self {
        match over.kind {
            LimitKind::Planes => DrawFault::Planes { count: over.count },
            LimitKind::Openings => DrawFault::Openings { count: over.count },
        }
    }
}

impl From<WallStop<CacheFault>> for DrawFault {
    ghost from_gives = { λ stop fault. fault ≡ from_stop stop };

    fn from(stop: WallStop<CacheFault>) -> Self {
        match stop {
            WallStop::Over(over) => DrawFault::from(over),
            WallStop::Brush(fault) => DrawFault::from(fault),
        }
    }
}
