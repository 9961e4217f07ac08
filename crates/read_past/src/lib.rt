// Reads a macro file past its faults (02, N11). What each answer says of the definitions stands in specs/.
#![tactic(auto)]

pub mod mend;

// The memory of the faults: their count, then number and place of each.
pub(crate) const FAULTS_BYTES: usize = 2052;

// A table's memory, and the bytes of a slot.
pub(crate) const TABLE_BYTES: usize = 98304;

pub(crate) const SLOT_BYTES: usize = 1024;
