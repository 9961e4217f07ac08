// Where things stand in a slot of the table's form.

// The bytes of a slot's symbol, tags and lengths; the items are behind them.
pub const HEADER_BYTES: usize = 10;

// The lengths of a slot's parts, in the order of the parts: the calls before the pattern, the pattern, the replacement, the commands.
pub const BEFORE_AT: usize = 2;

pub const PATTERN_AT: usize = 4;

pub const REPLACEMENT_AT: usize = 6;

pub const COMMANDS_AT: usize = 8;
