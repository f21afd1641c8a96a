// Mathematics only: words and their 2 by 2 matrices of determinant 1, up to sign. See specs/ and proofs/.
#![tactic(auto)]
