// Reads commands, before a pattern or behind a replacement. What each answer says of the machine of the definitions stands in specs/.
#![tactic(auto)]

pub mod commands;
