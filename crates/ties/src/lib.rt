// No code: that the promises of the theorems are the functions' own contracts stands in proofs/.
#![tactic(auto)]
