// A fault of an audit as that of a job.
ghost use Rattle.std.specs.Prelude.{◌≡◌};
ghost use Rattle.art_rules.specs.Words.{fault_above};
ghost use Rattle.refusals.specs.declared.refusal.Refusal.TheVariants.{Level};

use crate::AuditFault;
use job_files::LoadFault;
use refusals::Refusal;

/// A fault of an audit as that of a scene.
pub(crate) fn audit_fault(fault: AuditFault) -> LoadFault
    ensures { result ≡ fault_above Level fault }
{
    fault.above(Refusal::Level)
}
