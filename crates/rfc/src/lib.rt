// No code: the formats as the public documents define them stand in specs/, and their laws in proofs/.
#![tactic(auto)]
