// Definitions only: states, divisions, passes, lines and lists of lines. They stand in specs/.
#![tactic(auto)]
