// The form of a word-pattern (41).
ghost use Rattle.std.specs.Prelude.{◌≡◌, ◌&&◌, eqb};
ghost use Rattle.kinds.specs.Kind.{kind_table};
ghost use Rattle.words.specs.Pattern.{dash, allowed, all_allowed, two_dashes, is_pattern};
ghost use Rattle.word_find.specs.Letters.{letters};

use crate::{DASH, LETTER_OR_DIGIT};
use kinds::is_kind;

// A letter, a digit or a dash.
fn is_allowed(kinds: &[u8; 256], c: u8) -> bool
    requires { kinds.now ≡ kind_table }
    ensures { result ≡ allowed c }
{
    c == DASH || is_kind(kinds, c, LETTER_OR_DIGIT)
}

// Whether each byte of the pattern is a letter, a digit or a dash.
fn all_allowed(kinds: &[u8; 256], pattern: &[u8]) -> bool
    requires { kinds.now ≡ kind_table }
    ensures { result ≡ all_allowed pattern.now }
{
    pattern.iter().all(|c| is_allowed(kinds, *c))
}

// Whether `--` stands somewhere.
fn two_dashes(pattern: &[u8]) -> bool
    ensures { result ≡ two_dashes pattern.now }
{
    for i in 1..pattern.len() {
        if pattern[i - 1] == DASH && pattern[i] == DASH {
            return true;
        }
    }
    false
}

// 41: "word-pattern empty, with another byte or with `--`".
pub(crate) fn is_pattern(kinds: &[u8; 256], pattern: &[u8]) -> bool
    requires { kinds.now ≡ kind_table }
    ensures { result ≡ is_pattern pattern.now }
{
    if pattern.is_empty() {
        return false;
    }
    if two_dashes(pattern) {
        return false;
    }
    all_allowed(kinds, pattern)
}

// How many letters and digits a pattern has.
pub(crate) fn count_letters(pattern: &[u8]) -> usize
    ensures { result ≡ letters pattern.now }
{
    pattern.iter().filter(|c| **c != DASH).count()
}
