//! What holds of refusals.
ghost use Rattle.jr_plan.specs.Reasons.{OneFirstLoss};

/// Of the references that a refactoring loses one is the first.
pub fn one_first_loss()
    ensures { OneFirstLoss }
{}
