// Why a lump was not fetched.
ghost use Rattle.std.specs.Prelude.{◌≡◌};
ghost use Rattle.lump_cache.specs.Caches.{from_cache};
ghost use Rattle.lump_cache.specs.declared.fault.CacheFault.TheVariants.{ZoneFull, ReadFault};

use outside::{Failed, Fault};
use thiserror::Error;
use zone_heap::ZoneFull;

/// Why a lump was not fetched.
///
/// - `ZoneFull`: no gap of the zone holds a block of `wanted` bytes, its header included; the
///   widest has `widest` bytes.
/// - `ReadFault`: a call of the shelf failed.
#[derive(Clone, Copy, Debug, PartialEq, Eq, Drop, Error)]
pub enum CacheFault {
    #[error("the zone is full: a block of {wanted} bytes was wanted, the widest gap has {widest}")]
    ZoneFull { wanted: u64, widest: u64 },
    #[error("a lump could not be read")]
    ReadFault,
}

impl CacheFault {
    /// The same fault, for a layer that can refuse bytes too.
    pub fn above<R>(self) -> Fault<R>
        ensures { result ≡ from_cache self }
    {
        match self {
            CacheFault::ZoneFull { wanted, widest } => Fault::ZoneFull { wanted, widest },
            CacheFault::ReadFault => Fault::ReadFault,
        }
    }
}

impl From<ZoneFull> for CacheFault {
    ghost from_gives = { λ full fault. fault ≡ ZoneFull full.wanted full.widest };

    fn from(full: ZoneFull) -> Self {
        CacheFault::ZoneFull {
            wanted: full.wanted,
            widest: full.widest,
        }
    }
}

impl From<Failed> for CacheFault {
    ghost from_gives = { λ _ fault. fault ≡ ReadFault };

    fn from(_: Failed) -> Self {
        CacheFault::ReadFault
    }
}
