// The law of whole runs. The function answers nothing: its promise is the law.
#![tactic(auto)]

ghost use Rattle.whole_runs.specs.Law.{LawfulRuns, RefusalsLeave};

// Whatever is called on a new floor, in whatever sequence, and whatever pairs are opened in between.
pub fn runs_are_lawful()
    ensures runs { LawfulRuns }
    ensures refusals { RefusalsLeave }
{}
