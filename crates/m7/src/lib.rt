// The engine for the host: reading a macro file, also past its faults, measuring one, writing out a table, the fresh state, states of the old
// size, feeding a line, and looking words up. Each function that m7_c exports for C has a file of its own.
#![tactic(auto)]

mod answers;
pub mod feed;
pub mod fresh;
pub mod looking;
pub mod measure;
pub mod narrow;
pub mod read;
pub mod recover;
pub mod widen;
pub mod write;

// The bytes of a table's memory, of a file's to write to, of a state's, of a line's, of a trace's, and of a list of faults.
pub(crate) const TABLE_BYTES: usize = 98304;

pub(crate) const FILE_BYTES: usize = 32768;

pub(crate) const STATE_BYTES: usize = 52236;

pub(crate) const LINE_BYTES: usize = 1054;

pub(crate) const TRACE_BYTES: usize = 65536;

pub(crate) const FAULTS_BYTES: usize = 2052;
