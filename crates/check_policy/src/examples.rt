//! A realistic manifest, computed. Each function is a theorem, with nothing to do.
ghost use Rattle.check_policy.specs.Examples.{PathsLead, VerdictsAre};

/// Files of the host, a protected file, a folder whose name only begins as a mount's, and a mount's own place.
pub fn paths_lead()
    ensures { PathsLead }
{}

/// A trusted file with its sum and one without, an allowed file, files in neither list, and a uri that is not normal.
pub fn verdicts_are()
    ensures { VerdictsAre }
{}
