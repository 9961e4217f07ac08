// Computed cases only: the songs of 01 that are marked M. They stand in specs/.
#![tactic(auto)]
