//! What the answer to a text is: the value that it spells, or the place of its first fault.
//! The readers of values, types, patterns and request lines stand on this one definition and one theorem.
//! specs/FirstFault.antt has the definition, specs/Grammar.antt the words of grammars, specs/Machine.antt the
//! machines that judge a text letter by letter, and proofs/Machines.antt the theorem on them.
#![tactic(auto)]
