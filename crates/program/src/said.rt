// What the program says to a line.
ghost use Rattle.std.specs.Prelude.{◌≡◌, ◌+◌, ◌≤◌, length, take};
ghost use Rattle.program.specs.Said.{Within, RefusalSaid, OutSaid, Said, Numbered};

use line_answer::Answer;
use program_out::append;

// A line that goes out and a line feed, or the refusal, or nothing.
pub(crate) fn answer_said(answer: Answer, text: &[u8], line: u64, said: &mut [u8; 1100]) -> usize
    requires { (length text.now ≡ 1054) × (1100 ≡ length said.old) }
    ensures { Within result said.new × Said answer text.now line (take result said.new) }
{
    if answer.number != 0 {
        return refusal_said(answer.number, line, said);
    }
    if answer.kind != 1 {
        return 0;
    }
    line_said(text, answer.length as usize, said)
}

// The line, which is the first bytes of the text, and a line feed.
fn line_said(text: &[u8], size: usize, said: &mut [u8; 1100]) -> usize
    requires { length text.now ≡ 1054 }
    ensures { Within result said.new × OutSaid text.now size (take result said.new) }
{
    let n = size.min(text.len());
    let a = append(said, 0, &text[..n]);
    append(said, a, b"\n")
}

// `! N L` and a line feed.
pub(crate) fn refusal_said(number: u32, line: u64, said: &mut [u8; 1100]) -> usize
    ensures { Within result said.new × RefusalSaid number line (take result said.new) }
{
    let a = append(said, 0, b"! ");
    let b = number_said(said, a, u64::from(number), b' ');
    number_said(said, b, line, b'\n')
}

// Appends a number in digits and a byte.
fn number_said(said: &mut [u8; 1100], used: usize, n: u64, then: u8) -> usize
    requires { used + 21 ≤ 1100 }
    ensures { Numbered said.old said.new used n then result }
{
    let mut digits = [0u8; 20];
    let k = io::decimal(n, &mut digits);
    let a = append(said, used, &digits[..k]);
    append(said, a, &[then])
}
