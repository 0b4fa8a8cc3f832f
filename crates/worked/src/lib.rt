// The worked plans: small plans, logs and rows with the figures and verdicts that must come.
#![tactic(auto)]

ghost use Rattle.worked.specs.Worked.{WorkedPlans};

// Every example of the list of worked plans holds of the definitions that the contracts cite.
pub fn worked_plans_hold()
    ensures { WorkedPlans }
{}
