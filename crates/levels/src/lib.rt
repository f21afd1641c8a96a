// Mathematics only: tables of numbers that are filled level by level under rules with one or two premises. See specs/ and proofs/.
#![tactic(auto)]
