ghost use Rattle.rules.specs.Worked.{Runs};

// The worked runs follow from the rules. The answer says nothing: the promise is the theorem.
pub fn worked_runs_stand()
    ensures { Runs }
{}
