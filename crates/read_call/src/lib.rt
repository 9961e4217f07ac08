// Reads calls. What each answer says of the machine of the definitions stands in specs/.
#![tactic(auto)]

pub mod calls;

// The entries of a stack, and the largest counter.
pub(crate) const MOST_ENTRIES: u64 = 20;

pub(crate) const MOST_COUNTER: u64 = 999_999_999;

// The three places where a call other than a pattern's may stand.
#[derive(Clone, Copy, Debug, PartialEq, Eq)]
pub enum Site {
    BeforePattern,
    Replacement,
    Command,
}

// A letter, its move's code, and the byte behind them with its place.
#[derive(Clone, Copy)]
pub(crate) struct Name {
    pub letter: u8,
    pub move_code: u8,
    pub behind: u8,
    pub place: usize,
}

// What the byte behind a call's letter asks for: a text; a number of at most so much, for the item of this code; the item of this code.
#[derive(Clone, Copy)]
pub(crate) enum Tail {
    Text,
    Set(u8, u64),
    Insert(u8),
}
