// Faults as bytes (02, N11): no code. The form stands in specs/.
#![tactic(auto)]
