// The claims that the calls of a history hand out can be forecast (document 02, card 10): definitions and proofs alone, in specs/ and proofs/.
#![tactic(auto)]
