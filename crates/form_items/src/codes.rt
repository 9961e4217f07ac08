// The codes of the items in the table's form.

// PATTERN: braces, `^` and `$`.
pub const LEFT: u8 = 1;

pub const RIGHT: u8 = 2;

pub const START: u8 = 3;

pub const END: u8 = 4;

// Units: an item's code is the unit's plus the closure's.
pub const LITERAL: u8 = 8;

pub const KIND: u8 = 12;

pub const STACK_CALL: u8 = 16;

pub const COUNTER_CALL: u8 = 20;

pub const CLASS: u8 = 24;

pub const CLASS_NOT: u8 = 28;

// How far the codes of two units lie apart.
pub const UNIT_STEP: u8 = 4;

// Closures: one copy, `*` and `*-`.
pub const ONCE: u8 = 0;

pub const ONE_OR_MORE: u8 = 1;

pub const ZERO_OR_MORE: u8 = 2;

// Members of a class, and their end.
pub const SINGLE: u8 = 32;

pub const RANGE: u8 = 33;

pub const RANGE_END: u8 = 34;

pub const CLASS_END: u8 = 35;

// REPLACEMENT: a literal byte and `{n}`.
pub const TEXT: u8 = 40;

pub const TAG: u8 = 41;

// Behind a call's item: the number of a stored tag, the size of a stored text.
pub const STORED_TAG: u8 = 42;

pub const STORED_SIZE: u8 = 43;

// Calls that may move: an item's code is the call's plus the move's.
pub const INSERT_ENTRY: u8 = 48;

pub const INSERT_VALUE: u8 = 56;

pub const STORE_TAG: u8 = 64;

pub const STORE_TEXT: u8 = 72;

// Calls that set a number.
pub const SET_POINTER: u8 = 80;

pub const SET_VALUE: u8 = 88;

pub const SET_INCREMENT: u8 = 96;

// The call that divides a value by a number.
pub const DIVIDE: u8 = 104;

// Moves: none, by `+` or `-` before the letter, by them behind it.
pub const STILL: u8 = 0;

pub const PLUS: u8 = 1;

pub const MINUS: u8 = 2;

// What is added where the sign stands behind the letter.
pub const BEHIND: u8 = 2;
