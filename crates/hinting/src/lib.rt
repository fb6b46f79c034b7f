// The theorems on the trainer: which cell a hint gives, that it is safe, that it tells nothing of closed cells, and the score by its history. No code;
// the statements stand in specs/, their proofs in proofs/.
#![tactic(auto)]
