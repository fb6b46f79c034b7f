// The theorems on pictures, of drawing's writer and viewing's reader by their contracts. No code; the theorems stand in proofs/.
#![tactic(auto)]
