// The laws of the lawful position: every event of a lawful game keeps it. No code; the laws stand in proofs/.
#![tactic(auto)]
