// Document 01's worked values P1 to P12 as theorems over the definitions. See proofs/Values.antt. Values of signed lists, relations of small lists, quick
// answers, and wrong answers that the definitions refuse, stand beside them: Signed.antt, Relations.antt, Quick.antt, Refused.antt.
#![tactic(auto)]
