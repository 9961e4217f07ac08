// Reads macro files onto tables. What each answer says of the machine of the definitions stands in specs/.
#![tactic(auto)]

pub mod file;
mod slots;

use read_scan::ReadError;

// The macros of a table, and the bytes of a slot.
pub(crate) const MOST_MACROS: usize = 96;

pub(crate) const SLOT_BYTES: usize = 1024;

// A refusal, and how many macros the table had by then.
#[derive(Clone, Copy, Debug, PartialEq, Eq)]
pub(crate) struct Stopped {
    pub error: ReadError,
    pub macros: usize,
}
