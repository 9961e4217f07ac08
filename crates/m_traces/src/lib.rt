// Laws on the trace of a line (02, N1): no code.
#![tactic(auto)]
