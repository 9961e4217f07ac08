// Looking words up in a line (02, N5).
#![tactic(auto)]

mod cover;
mod form;
mod walk;

ghost use Rattle.std.specs.Prelude.{◌≡◌, Err};
ghost use Rattle.words.specs.Look.{look_up, looked_number};
ghost use Rattle.word_find.specs.Contract.{looked_of};

use form::is_pattern;
use kinds::kind_table;
use line_test::has_bad_byte;
use walk::find;

// The byte that stands for a run, and the kind of letters and digits.
pub(crate) const DASH: u8 = b'-';

pub(crate) const LETTER_OR_DIGIT: u8 = 2;

const MOST_LINE_BYTES: usize = 1054;

// Why words are not looked up: 21, 22 or 41.
#[derive(Clone, Copy, Debug, PartialEq, Eq)]
pub enum WordFault {
    LineTooLong,
    BadByte,
    BadPattern,
}

impl From<WordFault> for u32 {
    ghost from_gives = { λ f n. n ≡ looked_number (looked_of (Err f)) };

    #[tactic(auto, unfolding(words::specs::Look::looked_number, words::specs::Refusal::word_number, macros::specs::Refusals::line_number))]
    fn from(f: WordFault) -> u32 {
        match f {
            WordFault::LineTooLong => 21,
            WordFault::BadByte => 22,
            WordFault::BadPattern => 41,
        }
    }
}

// How many words are covered, and the place of the first.
#[derive(Clone, Copy, Debug, PartialEq, Eq)]
pub struct Found {
    pub words: u32,
    pub first: u32,
}

// Looks up the words of a line that a word-pattern covers.
pub fn look_up(line: &[u8], pattern: &[u8]) -> Result<Found, WordFault>
    ensures { looked_of result ≡ look_up line.now pattern.now }
{
    if MOST_LINE_BYTES < line.len() {
        return Err(WordFault::LineTooLong);
    }
    if has_bad_byte(line) {
        return Err(WordFault::BadByte);
    }
    let kinds = kind_table();
    if !is_pattern(&kinds, pattern) {
        return Err(WordFault::BadPattern);
    }
    let mut marks = [0u8; 1055];
    Ok(find(&kinds, line, pattern, &mut marks))
}
