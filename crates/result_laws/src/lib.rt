//! What a legal chain answers: over feeds of it, its meaning is a value of the type that its result has. The words stand in
//! specs/ResultLaws.
#![tactic(auto)]

ghost use Rattle.result_laws.specs.ResultLaws.{MeaningsFit};

/// What a legal chain means over feeds of it is a value of the chain's result type.
pub fn law_meanings_fit()
    ensures { MeaningsFit }
{}
