// Definitions only: what a macro is, and how it is read, written out and spelled. They stand in specs/.
#![tactic(auto)]
