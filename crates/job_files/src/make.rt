// The job `make`: the bytes of a made file, told by a number alone.
ghost use Rattle.std.specs.Prelude.{◌≡◌, IfOk};
ghost use Rattle.job_files.specs.Rules.{FaultsRose, IsCountedMake};
ghost use Rattle.job_files.specs.Made.{made_file};
ghost use Rattle.job_files.specs.Statuses.{DeliversBytes};

use crate::status::Status;
use art_rules::{OutOfMemory, Sink};
use job_rules::MakeJob;
use level_maker::{make_path, make_tables, make_things, make_wad};
use std::alloc::Global;

/// The bytes of a made file. Takes all memory of the job, and asks for no file.
///
/// This project's own: the made files.
pub fn prepare_make(alloc: Global, job: MakeJob) -> Result<Vec<u8>, OutOfMemory>
    requires { IsCountedMake job }
    ensures { IfOk result (λ bytes. bytes.items ≡ made_file job) }
{
    match job {
        MakeJob::Wad(n) => make_wad(alloc, n as u32),
        MakeJob::Path(n) => make_path(alloc, n as u32),
        MakeJob::Tables => make_tables(alloc),
        MakeJob::Things => make_things(alloc),
    }
}

/// Writes the bytes of a made file. Takes no memory.
///
/// `Done`, or `WriteFault` where the count of faults of `out` rose; then a prefix was appended.
///
/// This project's own: the made files.
pub fn deliver_make<K: Sink>(bytes: &[u8], out: &mut K) -> Status
    ensures ends { DeliversBytes bytes.now (K.written out.old) (K.written out.new) result }
    ensures write_fault { result ≡ Status.WriteFault →
        FaultsRose (K.faults out.old) (K.faults out.new) }
    ensures write_settled { (result ≡ Status.WriteFault → ⊥) →
        K.faults out.new ≡ K.faults out.old }
{
    match out.put(bytes) {
        Ok(()) => Status::Done,
        Err(_) => Status::WriteFault,
    }
}
