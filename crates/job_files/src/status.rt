// How a run ends.
ghost use Rattle.std.specs.Prelude.{◌≡◌};
ghost use Rattle.job_files.specs.Statuses.{code_of, status_of};

use crate::fault::LoadFault;
use art_rules::Fault;
use picture_rules::LimitKind;
use refusals::Refusal;

/// How a run ends.
#[derive(Clone, Copy, Debug, PartialEq, Eq)]
pub enum Status {
    /// The whole output was written.
    Done,
    /// The words are no command.
    Usage,
    /// Bytes of the files are refused.
    Refused(Refusal),
    /// A file could not be found or read.
    ReadFault,
    /// The output did not take what was written.
    WriteFault,
    /// The view of that number, counted from 0, has more of a kind than the limit: `count`. All
    /// views before it were written.
    Limit {
        view: u32,
        kind: LimitKind,
        count: u32,
    },
    /// No gap of the zone held `wanted` bytes; the widest had `widest`.
    ZoneFull {
        wanted: u64,
        widest: u64,
    },
    /// Memory was not found.
    OutOfMemory,
}

impl Status {
    /// The number with which the program ends, 0 to 7.
    pub fn code(&self) -> u8
        ensures { result ≡ code_of self.now }
    {
        match self {
            Status::Done => 0,
            Status::Usage => 1,
            Status::Refused(_) => 2,
            Status::ReadFault => 3,
            Status::WriteFault => 4,
            Status::Limit { .. } => 5,
            Status::ZoneFull { .. } => 6,
            Status::OutOfMemory => 7,
        }
    }

    // The status of a fault.
    pub fn of(fault: LoadFault) -> Status
        ensures { result ≡ status_of fault }
    {
        match fault {
            Fault::Refused(refusal) => Status::Refused(refusal),
            Fault::ReadFault => Status::ReadFault,
            Fault::ZoneFull { wanted, widest } => Status::ZoneFull { wanted, widest },
            Fault::OutOfMemory => Status::OutOfMemory,
        }
    }
}
