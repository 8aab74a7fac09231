// What stops the loading of a directory.
ghost use Rattle.std.specs.Prelude.{◌≡◌};
ghost use Rattle.wad_dir.specs.declared.fault.DirFault.TheVariants.{Refused, ReadFault, OutOfMemory};

use lump_rules::DirRefusal;
use outside::Failed;
use std::alloc::{AllocError, AllocFailed};
use thiserror::Error;

/// What stops the loading of a directory: the bytes of the files, a read that failed, or want of
/// memory.
#[derive(Clone, Copy, Debug, PartialEq, Eq, Error)]
pub enum DirFault {
    #[error("{0}")]
    Refused(DirRefusal),
    #[error("a WAD is absent or could not be read")]
    ReadFault,
    #[error("out of memory")]
    OutOfMemory,
}

impl From<DirRefusal> for DirFault {
    ghost from_gives = { λ refusal fault. fault ≡ Refused refusal };

    fn from(refusal: DirRefusal) -> Self {
        DirFault::Refused(refusal)
    }
}

impl From<Failed> for DirFault {
    ghost from_gives = { λ _ fault. fault ≡ ReadFault };

    fn from(_: Failed) -> Self {
        DirFault::ReadFault
    }
}

impl From<AllocError> for DirFault {
    ghost from_gives = { λ _ fault. fault ≡ OutOfMemory };

    fn from(_: AllocError) -> Self {
        DirFault::OutOfMemory
    }
}

impl<T: Drop> From<AllocFailed<T>> for DirFault {
    ghost from_gives = { λ _ fault. fault ≡ OutOfMemory };

    fn from(_: AllocFailed<T>) -> Self {
        DirFault::OutOfMemory
    }
}
