// What a check answers and which frame rows it leaves, as definitions (specs/), and that this is exact (proofs/); there is no code.
#![tactic(auto)]
