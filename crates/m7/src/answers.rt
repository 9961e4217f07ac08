// Answers without passes.
ghost use Rattle.std.specs.Prelude.{◌≡◌, ◌≤◌};
ghost use Rattle.macros.specs.Bounds.{most_file_bytes};
ghost use Rattle.line_answer.specs.Replies.{reply};

use line_answer::Answer;

// A refusal's number and place.
pub(crate) fn refusal(number: u32, place: usize) -> Answer
    requires { place ≤ most_file_bytes }
    ensures { result ≡ reply number place 0 }
{
    Answer {
        number,
        place: place as u32,
        passes: 0,
        kind: 0,
        length: 0,
    }
}

// A call that is taken, with its length.
pub(crate) fn taken(size: usize) -> Answer
    requires { size ≤ most_file_bytes }
    ensures { result ≡ reply 0 0 size }
{
    Answer {
        number: 0,
        place: 0,
        passes: 0,
        kind: 0,
        length: size as u32,
    }
}
