// Definitions only: the form of a table as bytes, and the decision whether bytes are one. They stand in specs/.
#![tactic(auto)]
