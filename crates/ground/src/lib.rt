// No code: choices by a test, parts of lists and tables stand in specs/, and their laws in proofs/.
#![tactic(auto)]
