// Definitions and laws only: reading a macro file past its faults (02, N11). They stand in specs/.
#![tactic(auto)]
