// The rules of docs/RULES.md as definitions (specs/) and what follows from them alone (proofs/); there is no code.
#![tactic(auto)]
