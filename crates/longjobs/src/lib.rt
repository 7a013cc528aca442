// The entries of `Jobs` that take the longest to compute (proofs/), apart from `rules`, so that no edit of a rule waits for them; there is no
// code.
#![tactic(auto)]
