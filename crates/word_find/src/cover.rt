// Whether a word-pattern covers a word. Mark i says whether the rest of the pattern covers the word from its byte i on;
// the rest grows from nothing to the whole pattern, and each byte of it costs one look at each mark.
ghost use Rattle.std.specs.Prelude.{◌<◌, ◌≡◌, [], eqb, length};
ghost use Rattle.macros.specs.Macro.{pick};
ghost use Rattle.words.specs.Cover.{covers};
ghost use Rattle.word_find.specs.Marks.{Marked, Steps, StepsDash, StepsByte};

use crate::DASH;

// Nothing covers the empty end of the word alone.
fn start(marks: &mut [u8], word: &[u8])
    requires { length word.now < length marks.old }
    ensures { Marked marks.new [] word.now }
{
    let n = word.len();
    marks[..n].fill(0);
    marks[n] = 1;
}

// A dash covers what the rest covers behind any number of bytes, also none.
fn put_dash(marks: &mut [u8], word: &[u8])
    requires { length word.now < length marks.old }
    ensures { StepsDash marks.old marks.new word.now }
{
    let mut later = 0u8;
    for i in (0..word.len() + 1).rev() {
        let here = marks[i] | later;
        marks[i] = here;
        later = here;
    }
}

// The mark behind a byte that is c, else 0.
#[tactic(auto, unfolding(macros::specs::Macro::pick))]
fn behind(c: u8, b: u8, next: u8) -> u8
    ensures { result ≡ pick (eqb c b) next 0 }
{
    if c == b { next } else { 0 }
}

// A letter or digit c covers itself, and the rest what is behind it.
fn put_byte(marks: &mut [u8], word: &[u8], c: u8)
    requires { length word.now < length marks.old }
    ensures { StepsByte marks.old marks.new word.now c }
{
    let n = word.len();
    for i in 0..n {
        marks[i] = behind(c, word[i], marks[i + 1]);
    }
    marks[n] = 0;
}

// One byte more of the pattern.
fn put(marks: &mut [u8], word: &[u8], c: u8)
    requires { length word.now < length marks.old }
    ensures { Steps marks.old marks.new word.now c }
{
    if c == DASH {
        put_dash(marks, word);
    } else {
        put_byte(marks, word, c);
    }
}

// Whether the pattern covers the word; what the marks held before has no influence.
pub(crate) fn is_covered(pattern: &[u8], word: &[u8], marks: &mut [u8]) -> bool
    requires { length word.now < length marks.old }
    ensures { result ≡ covers pattern.now word.now }
{
    start(marks, word);
    for k in (0..pattern.len()).rev() {
        put(marks, word, pattern[k]);
    }
    marks[0] == 1
}
