// Mathematics only: what a list of generators can make, and why a finite table of states decides it. See specs/ and proofs/.
#![tactic(auto)]
