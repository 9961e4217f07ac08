// Looking words up, for the host (02, N5).
ghost use Rattle.std.specs.Prelude.{◌≡◌};
ghost use Rattle.line_answer.specs.Replies.{reply};
ghost use Rattle.m7.specs.Words.{looks_up};

use line_answer::Answer;
use word_find::look_up;

// Looks up the words of a line that a word-pattern covers. The length is their number, the place that of the first; both are 0 if none is.
pub fn m7_words(line: &[u8], pattern: &[u8]) -> Answer
    ensures { result ≡ looks_up line.now pattern.now }
{
    match look_up(line, pattern) {
        Ok(found) => words_reply(0, found.first, found.words),
        Err(fault) => words_reply(u32::from(fault), 0, 0),
    }
}

fn words_reply(number: u32, place: u32, words: u32) -> Answer
    ensures { result ≡ reply number place words }
{
    Answer {
        number,
        place,
        passes: 0,
        kind: 0,
        length: words,
    }
}
