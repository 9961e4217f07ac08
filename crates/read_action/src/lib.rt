// Reads replacements. What each answer says of the machine of the definitions stands in specs/.
#![tactic(auto)]

pub mod actions;
