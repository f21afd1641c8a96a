// Mathematics only: the images of words modulo 7, their numbers and their products. See specs/ and proofs/.
#![tactic(auto)]
