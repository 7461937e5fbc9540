// Laws of judgements.

ghost use Rattle.pb_audit.specs.Laws.{CertifiedFindingsLaw, FewerLaw, NothingLaw, OneFindingsLaw, PassedLaw, SomeFindingsLaw};

/// The law that the findings in records exist and are unique, so the judgement of a report is settled. After a finding fewer records are
/// left, and if none is left nothing is found.
pub fn findings_law()
    ensures some { SomeFindingsLaw }
    ensures one { OneFindingsLaw }
    ensures fewer { FewerLaw }
    ensures nothing { NothingLaw }
{}

/// The law that each block that passes is certified, wherever it came from, and that its state is converged exactly when its gap is met.
pub fn certified_law()
    ensures { CertifiedFindingsLaw }
{}

/// The law that if records are blocks that pass, and rows between them, nothing else is found.
pub fn passed_law()
    ensures { PassedLaw }
{}
