// Laws only: the automatic passes never lose a right game by themselves (specs/Harmless.antt).
#![tactic(auto)]
