// The no-flag class by the contracts of its functions: clean after every call, and demand 3. No code; the statements stand in specs/, their proofs in
// proofs/.
#![tactic(auto)]
