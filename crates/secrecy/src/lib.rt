// Laws only: a player learns nothing from a closed cell (specs/Demand.antt).
#![tactic(auto)]
