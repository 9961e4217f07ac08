// The words of a line, one after the other.
ghost use Rattle.std.specs.Prelude.{◌+◌, ◌≤◌, ◌<◌, ◌≡◌, length, drop, Ok};
ghost use Rattle.kinds.specs.Kind.{kind_table};
ghost use Rattle.words.specs.Word.{leading, words_of};
ghost use Rattle.words.specs.Look.{covered_of, found_of};
ghost use Rattle.word_find.specs.Contract.{looked_of};
ghost use Rattle.word_find.specs.Letters.{letters};
ghost use Rattle.word_find.specs.Marks.{mark};
ghost use Rattle.word_find.specs.Walk.{is_hit, first_of};

use crate::cover::is_covered;
use crate::form::count_letters;
use crate::{Found, LETTER_OR_DIGIT};
use kinds::is_kind;

// Where the run of letters and digits ends that begins at a place, perhaps an empty one.
fn word_end(kinds: &[u8; 256], line: &[u8], at: usize) -> usize
    requires { (kinds.now ≡ kind_table) × (at ≤ length line.now) }
    ensures { result ≡ at + length (leading (drop at line.now)) }
{
    for e in at..line.len() {
        if !is_kind(kinds, line[e], LETTER_OR_DIGIT) {
            return e;
        }
    }
    line.len()
}

// 1 if the run is a word that the pattern covers, else 0. One with fewer bytes than the pattern has letters and digits is not looked at.
fn hits(pattern: &[u8], count: usize, run: &[u8], marks: &mut [u8]) -> usize
    requires { (count ≡ letters pattern.now) × (length run.now < length marks.old) }
    ensures { result ≡ mark (is_hit pattern.now run.now) }
{
    if run.len() < 1 {
        return 0;
    }
    if run.len() < count {
        return 0;
    }
    usize::from(is_covered(pattern, run, marks))
}

// The place of the first word covered: n were covered before the run at i, and h says whether it is one.
#[tactic(auto, unfolding(crate::specs::Walk::first_of, macros::specs::Macro::pick))]
fn first_of(n: usize, h: usize, i: usize, first: usize) -> usize
    ensures { result ≡ first_of n h i first }
{
    if h < 1 {
        return first;
    }
    if n < 1 {
        return i;
    }
    first
}

// Behind a run stands a byte that is no letter or digit, or the line's end.
pub(crate) fn find(kinds: &[u8; 256], line: &[u8], pattern: &[u8], marks: &mut [u8]) -> Found
    requires { (kinds.now ≡ kind_table) × (length line.now ≤ 1054) × (length marks.old ≡ 1055) }
    ensures { looked_of (Ok result) ≡ found_of (covered_of pattern.now (words_of line.now)) }
{
    let count = count_letters(pattern);
    let mut n = 0;
    let mut first = 0;
    let mut i = 0;
    while i < line.len() {
        let e = word_end(kinds, line, i);
        let h = hits(pattern, count, &line[i..e], marks);
        first = first_of(n, h, i, first);
        n += h;
        i = e + 1;
    }
    Found {
        words: n as u32,
        first: first as u32,
    }
}
