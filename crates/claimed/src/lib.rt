// No code: what the checker and the second program promise of a book, over the definitions of Claims.
#![tactic(auto)]
