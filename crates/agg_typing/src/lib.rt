//! The names of chains and the typing of calls: what a name spells, the nine rules in their order with the first that is
//! broken, and which chains with types are legal. The definitions stand in specs/, in this order: Literals, Names, Same,
//! Faults, Suffixes, Parameters, Counts, Kinds, States, Typing, Legal; their laws in Promises.
#![tactic(auto)]

ghost use Rattle.agg_typing.specs.Promises.{SpelledIsRead, ReadIsSpelled, SpelledOnce, ChainTestIsExact, AllowedIsLegal, AllowedStateIsLegal, LegalIsLawful, InnerIsLegal, ResultIsLegal, StateTypeIsLegal, StateTypeIsOfLegal, PatternsArePatterns, PatternMeetsConditions};

/// The laws of names and typing.
pub fn law_typing()
    ensures spelled_is_read { SpelledIsRead }
    ensures read_is_spelled { ReadIsSpelled }
    ensures spelled_once { SpelledOnce }
    ensures chain_test_is_exact { ChainTestIsExact }
    ensures allowed_is_legal { AllowedIsLegal }
    ensures allowed_state_is_legal { AllowedStateIsLegal }
    ensures legal_is_lawful { LegalIsLawful }
    ensures inner_is_legal { InnerIsLegal }
    ensures result_is_legal { ResultIsLegal }
    ensures state_type_is_legal { StateTypeIsLegal }
    ensures state_type_is_of_legal { StateTypeIsOfLegal }
    ensures patterns_are_patterns { PatternsArePatterns }
    ensures pattern_meets_conditions { PatternMeetsConditions }
{}
