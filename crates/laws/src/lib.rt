#![tactic(auto)]
// General facts on lists, order, division and answers. Definitions are in specs/, laws in proofs/; there is no code.
