// Findings as faults.
ghost use Rattle.std.specs.Prelude.{◌≡◌};
ghost use Rattle.cdk_settings.specs.Answers.{fault_of as fault_of_finding};

use cdk_base::Fault;
use cdk_language::Finding;

/// The fault that a finding is.
pub fn fault_of(finding: Finding) -> Fault
    ensures { result ≡ fault_of_finding finding }
{
    let Finding { code, place } = finding;
    Fault::App { code, place }
}
