// The cases of document 01 that are marked P, as theorems about the definitions. They stand in proofs/; there is no code here.
#![tactic(auto)]
