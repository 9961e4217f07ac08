// Reads patterns. What each answer says of the machine of the definitions stands in specs/.
#![tactic(auto)]

pub mod pattern;

// The tags of a pattern.
pub(crate) const MOST_TAGS: usize = 99;

// How far a pattern is: its tags, whether it has an element, and the bytes written.
#[derive(Clone, Copy, Debug, PartialEq, Eq)]
pub(crate) struct PatternSoFar {
    pub(crate) tags: usize,
    pub(crate) some: bool,
    pub(crate) used: usize,
}

// What ends a run of elements, with its place: a right brace or the quote.
#[derive(Clone, Copy, Debug, PartialEq, Eq)]
pub(crate) enum Inside {
    Closed(usize, PatternSoFar),
    Quote(usize, PatternSoFar),
}

// The place behind a pattern's closing quote, its tags, and the end of what is written.
#[derive(Clone, Copy, Debug, PartialEq, Eq)]
pub struct Whole {
    pub place: usize,
    pub tags: usize,
    pub used: usize,
}
