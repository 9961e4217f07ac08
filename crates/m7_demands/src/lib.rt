// Laws only: demands 2 and 3 of the exported functions, and that their contracts leave nothing free. Their statements stand in specs/.
#![tactic(auto)]
