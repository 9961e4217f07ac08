// Definitions and laws only: words and word-patterns. They stand in specs/.
#![tactic(auto)]
