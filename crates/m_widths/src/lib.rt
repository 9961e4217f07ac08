// States of both sizes, and the old engine beside the new one (02, N6): no code.
#![tactic(auto)]
