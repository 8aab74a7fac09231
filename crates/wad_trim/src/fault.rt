// Why a level is not trimmed, and why a trimmed file is not written.
ghost use Rattle.std.specs.Prelude.{◌≡◌};
ghost use Rattle.wad_trim.specs.declared.fault.TrimFault.TheVariants as fault;
ghost use Rattle.wad_trim.specs.declared.fault.TrimWrite.TheVariants.{WriteFault};
ghost use Rattle.wad_trim.specs.Faults.{write_of_cache};

use art_rules::{Failed, OutOfMemory};
use job_rules::TrimRefusal;
use texture_build::CacheFault;
use thiserror::Error;

/// Why there is no plan of a trimmed file. This project's own.
#[derive(Clone, Copy, Debug, PartialEq, Eq, Drop, Error)]
pub enum TrimFault {
    #[error("{0}")]
    Refused(TrimRefusal),
    #[error("out of memory")]
    OutOfMemory,
}

impl From<OutOfMemory> for TrimFault {
    ghost from_gives = { λ _ above. above ≡ fault.OutOfMemory };

    fn from(_: OutOfMemory) -> Self {
        TrimFault::OutOfMemory
    }
}

/// Why a trimmed file was not written to its end.
///
/// - `ReadFault`: a call of the shelf failed.
/// - `WriteFault`: the output failed.
/// - `ZoneFull`: no gap of the zone holds a block of `wanted` bytes, its header included; the
///   widest has `widest` bytes.
///
/// This project's own.
#[derive(Clone, Copy, Debug, PartialEq, Eq, Drop, Error)]
pub enum TrimWrite {
    #[error("a lump could not be read")]
    ReadFault,
    #[error("the trimmed file could not be written")]
    WriteFault,
    #[error("the zone is full: a block of {wanted} bytes was wanted, the widest gap has {widest}")]
    ZoneFull { wanted: u64, widest: u64 },
}

impl From<CacheFault> for TrimWrite {
    ghost from_gives = { λ below above. above ≡ write_of_cache below };

    fn from(below: CacheFault) -> Self {
        match below {
            CacheFault::ReadFault => TrimWrite::ReadFault,
            CacheFault::ZoneFull { wanted, widest } => TrimWrite::ZoneFull { wanted, widest },
        }
    }
}

// The output alone answers so here: a failed call of the shelf comes as a fault of the cache.
impl From<Failed> for TrimWrite {
    ghost from_gives = { λ _ above. above ≡ WriteFault };

    fn from(_: Failed) -> Self {
        TrimWrite::WriteFault
    }
}
