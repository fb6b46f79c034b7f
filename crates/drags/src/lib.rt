// The theorems of the slider on a book: over any sequence of calls a drag gives what playing from the start gives. No code; the laws stand in proofs/.
#![tactic(auto)]
