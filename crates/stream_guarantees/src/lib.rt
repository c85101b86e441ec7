// No code: what may be relied on stands in specs/, and its proof in proofs/.
#![tactic(auto)]
