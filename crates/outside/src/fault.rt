// Why a call over files, a zone and memory ends without its value.
ghost use Rattle.std.specs.Prelude.{◌≡◌};
ghost use Rattle.outside.specs.Faults.{IsAboveBy};
ghost use Rattle.outside.specs.declared.fault.Fault.TheVariants.{ReadFault, OutOfMemory};

use crate::Failed;
use std::alloc::{AllocError, AllocFailed};
use std::fmt::Display;
use thiserror::Error;

/// Why a call ends without its value. `R` says what can be wrong with the bytes that it reads.
///
/// - `Refused`: the bytes are refused, for the reason given.
/// - `ReadFault`: a file is absent, or a call of the shelf failed.
/// - `ZoneFull`: no gap of the zone holds a block of `wanted` bytes, its header included; the widest
///   has `widest` bytes.
/// - `OutOfMemory`: the machine's memory ran out. It says nothing of the bytes.
#[derive(Clone, Copy, Debug, PartialEq, Eq, Drop, Error)]
#[error_bound(R: Display)]
pub enum Fault<R> {
    #[error("{0}")]
    Refused(R),
    #[error("a file is absent or could not be read")]
    ReadFault,
    #[error("the zone is full: a block of {wanted} bytes was wanted, the widest gap has {widest}")]
    ZoneFull { wanted: u64, widest: u64 },
    #[error("out of memory")]
    OutOfMemory,
}

impl<R> Fault<R> {
    /// The same fault with its refusal as a layer above names it.
    pub fn above<Q, F: FnOnce(R) -> Q>(self, lift: F) -> Fault<Q>
        requires { F.IsAlwaysCallable lift }
        ensures { IsAboveBy (F.post lift) self result }
    {
        match self {
            Fault::Refused(refusal) => Fault::Refused(lift(refusal)),
            Fault::ReadFault => Fault::ReadFault,
            Fault::ZoneFull { wanted, widest } => Fault::ZoneFull { wanted, widest },
            Fault::OutOfMemory => Fault::OutOfMemory,
        }
    }
}

impl<R> From<Failed> for Fault<R> {
    ghost from_gives = { λ _ fault. fault ≡ ReadFault };

    fn from(_: Failed) -> Self {
        Fault::ReadFault
    }
}

impl<R> From<AllocError> for Fault<R> {
    ghost from_gives = { λ _ fault. fault ≡ OutOfMemory };

    fn from(_: AllocError) -> Self {
        Fault::OutOfMemory
    }
}

impl<T: Drop, R> From<AllocFailed<T>> for Fault<R> {
    ghost from_gives = { λ _ fault. fault ≡ OutOfMemory };

    fn from(_: AllocFailed<T>) -> Self {
        Fault::OutOfMemory
    }
}
