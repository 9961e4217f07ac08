// Where things stand in a state's form, and how long they are.

// The size of a state's memory.
pub const STATE_BYTES: usize = 52236;

// The pointers, behind the two flags.
pub const POINTERS_AT: usize = 2;

// The values of the counters, and their increments.
pub const VALUES_AT: usize = 28;

pub const INCREMENTS_AT: usize = 132;

// The entries of the stacks.
pub const ENTRIES_AT: usize = 236;

// The bytes of an entry, and of a stack's entries.
pub const ENTRY_BYTES: usize = 100;

pub const STACK_BYTES: usize = 2000;
