// Why the files of a job, or what it needs of them, are not loaded.
ghost use Rattle.std.specs.Prelude.{◌≡◌};
ghost use Rattle.art_rules.specs.Words.{fault_above};
ghost use Rattle.lump_cache.specs.Faults.{dir_fault};
ghost use Rattle.refusals.specs.declared.refusal.Refusal.TheVariants.{Wad};

use art_rules::Fault;
use lump_cache::DirFault;
use refusals::Refusal;

/// Why a job has not what it needs: the first refusal of the files' bytes, a file that is absent or
/// could not be read, a zone without room for a lump, or out of memory.
pub type LoadFault = Fault<Refusal>;

/// A fault of a directory as that of the files.
pub(crate) fn wad_fault(fault: DirFault) -> LoadFault
    ensures { result ≡ fault_above Wad (dir_fault fault) }
{
    match fault {
        DirFault::Refused(refusal) => Fault::Refused(Refusal::Wad(refusal)),
        DirFault::ReadFault => Fault::ReadFault,
        DirFault::OutOfMemory => Fault::OutOfMemory,
    }
}
