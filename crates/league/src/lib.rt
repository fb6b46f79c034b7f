// Demand 3 for the public functions, by their contracts, and the league's rules in whole games. No code; the statements stand in specs/, their proofs
// in proofs/.
#![tactic(auto)]
