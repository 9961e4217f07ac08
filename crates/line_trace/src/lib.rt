// The lines of a pass in the memory of a trace (02, N1).
#![tactic(auto)]

ghost use Rattle.std.specs.Prelude.{◌≡◌, ◌+◌, ◌≤◌, ◌<◌, length};
ghost use Rattle.macros.specs.Write.{digits};
ghost use Rattle.line_trace.specs.Tracing.{Room, Puts, Lent, Asked, Traces};

// The bytes of the three words, and of the line feeds that end the lines.
const WORDS: usize = 27;

// A text behind the first `at` bytes.
fn put(trace: &mut [u8], at: usize, text: &[u8]) -> usize
    requires { at + length text.now ≤ length trace.old }
    ensures { Puts trace.old at text.now trace.new result }
{
    for i in 0..text.len() {
        trace[at + i] = text[i];
    }
    at + text.len()
}

// A macro's number, of one or two digits.
#[tactic(auto, using(form_table::proofs::Digits::digits_few, form_table::proofs::Digits::digits_two))]
fn put_number(trace: &mut [u8], at: usize, number: usize) -> usize
    requires { (number < 100) × (at + length (digits number) ≤ length trace.old) }
    ensures { Puts trace.old at (digits number) trace.new result }
{
    if number < 10 {
        trace[at] = 48 + number as u8;
        return at + 1;
    }
    trace[at] = 48 + (number / 10) as u8;
    trace[at + 1] = 48 + (number % 10) as u8;
    at + 2
}

// How many digits a macro's number has.
#[tactic(auto, using(form_table::proofs::Digits::digits_few, form_table::proofs::Digits::digits_two))]
fn figures(number: usize) -> usize
    requires { number < 100 }
    ensures { result ≡ length (digits number) }
{
    if number < 10 { 1 } else { 2 }
}

// The three lines, for which there is room.
#[tactic(auto, using(crate::proofs::Laws::lines_size))]
fn put_lines(trace: &mut [u8], at: usize, before: &[u8], number: usize, after: &[u8]) -> usize
    requires { Room trace.old at before.now number after.now }
    ensures { Asked trace.old at before.now number after.now trace.new result }
{
    let a = put(trace, at, b"oldline:");
    let b = put(trace, a, before);
    let c = put(trace, b, b"\nmacro #:");
    let d = put_number(trace, c, number);
    let e = put(trace, d, b"\nnewline:");
    let f = put(trace, e, after);
    put(trace, f, b"\n")
}

// The lines of a pass behind the first `at` bytes, if a trace is asked for: the text before it, its macro's number, and the text after
// it. The bytes of the trace then, or `None` where they do not fit.
#[tactic(auto, using(crate::proofs::Laws::lines_size, crate::proofs::Laws::digits_small))]
pub fn trace_pass(
    trace: &mut [u8],
    traced: bool,
    at: usize,
    before: &[u8],
    number: usize,
    after: &[u8],
) -> Option<usize>
    requires { Lent traced trace.old at before.now number after.now }
    ensures { Traces traced trace.old at before.now number after.now trace.new result }
{
    if !traced {
        return Some(at);
    }
    let size = WORDS + before.len() + figures(number) + after.len();
    if trace.len() - at < size {
        return None;
    }
    Some(put_lines(trace, at, before, number, after))
}
