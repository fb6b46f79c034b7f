// Laws only: the no-flag class, what it forbids and what its games keep (its definitions are the chapter Noflag of `rules`).
#![tactic(auto)]
