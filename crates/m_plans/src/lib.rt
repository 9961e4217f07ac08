// Cases of N8 on large files: no code. They stand in specs/.
#![tactic(auto)]
