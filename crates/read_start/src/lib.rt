// What refuses a file as a whole, and where its macros begin. What each answer says of the machine of the definitions stands in specs/.
#![tactic(auto)]

pub mod start;

// The bytes of a macro file.
pub(crate) const MOST_FILE_BYTES: usize = 32768;
