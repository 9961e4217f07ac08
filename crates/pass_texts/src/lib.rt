// What an action inserts (01, part 4).
#![tactic(auto)]

ghost use Rattle.std.specs.Prelude.{◌≡◌, ◌+◌, ◌≤◌, ◌<◌, length};
ghost use Rattle.std.proofs.Math.Seq.{slice};
ghost use Rattle.macros.specs.Bounds.{most_counter};
ghost use Rattle.macros.specs.Write.{digits};
ghost use Rattle.lines.specs.Dividing.{divided_text};
ghost use Rattle.form_state.specs.Access.{IsState};
ghost use Rattle.pass_steps.specs.Texts.{Cut};
ghost use Rattle.pass_texts.specs.Inserting.{Fit, inserts_in};
ghost use Rattle.pass_steps.specs.Moments.{Room, Inserts, Does};
ghost use Rattle.pass_texts.specs.Digits.{Digits, Figures};

use form_state::value;
use pass_steps::{Span, Text, copy, part};
use refusals::{WorkError, WorkFault};

// A text joins the new line, which has size bytes. 32: "the new line's 1,055th byte".
#[tactic(auto, using(crate::proofs::Putting::put_refused, crate::proofs::Putting::put_made))]
fn put(out: &mut [u8], size: usize, bytes: &[u8]) -> Result<usize, WorkError>
    requires { Room out.old size }
    ensures { Inserts bytes.now out.old size out.new result }
{
    if 1054 - size < bytes.len() {
        return Err(WorkError {
            fault: WorkFault::NewLineTooLong,
            size,
        });
    }
    copy(out, size, bytes);
    Ok(size + bytes.len())
}

// The digit of a number below 10.
fn figure(v: u32) -> u8
    requires { v < 10 }
    ensures { result ≡ 48 + v }
{
    b'0' + v as u8
}

// The digits of a value, without leading zeros: those before the last first, a call for each.
fn put_digits(out: &mut [u8], v: u32) -> usize
    requires { (length (digits v) ≤ length out.old) × (length out.old ≤ 9) }
    ensures { Digits v out.new result }
{
    if v < 10 {
        out[0] = figure(v);
        return 1;
    }
    let n = put_digits(out, v / 10);
    out[n] = figure(v % 10);
    n + 1
}

// The digits that `#(i)` stands for join the new line.
fn put_value(v: u32, out: &mut [u8], size: usize) -> Result<usize, WorkError>
    requires { (v ≤ most_counter) × Room out.old size }
    ensures { Inserts (digits v) out.old size out.new result }
{
    let mut figures = [0u8; 9];
    let n = put_digits(&mut figures, v);
    put(out, size, &figures[..n])
}

// The digits of a value behind the first `at` bytes of a text: where they end.
fn put_figures(text: &mut [u8], at: usize, v: u32) -> usize
    requires { (v ≤ most_counter) × (at + 9 ≤ length text.old) × (length text.old ≤ 19) }
    ensures { Figures v at text.old text.new result }
{
    let mut figures = [0u8; 9];
    let n = put_digits(&mut figures, v);
    copy(text, at, &figures[..n]);
    at + n
}

// The quotient, a space and the remainder that `#(i:n)` stands for join the new line.
pub fn put_divided(v: u32, n: u32, out: &mut [u8], size: usize) -> Result<usize, WorkError>
    requires { (v ≤ most_counter) × (1 ≤ n) × Room out.old size }
    ensures { Inserts (divided_text v n) out.old size out.new result }
{
    let quotient = v / n;
    let remainder = v % n;
    let mut text = [0u8; 19];
    let space = put_figures(&mut text, 0, quotient);
    text[space] = b' ';
    let end = put_figures(&mut text, space + 1, remainder);
    put(out, size, &text[..end])
}

// A byte, `{n}`, `&(i)` or `#(i)`: what it stands for is inserted.
pub fn insert<'a>(
    line: &'a [u8],
    span: Span,
    t: &[u8],
    state: &'a [u8],
    out: &mut [u8],
    size: usize,
) -> Result<usize, WorkError>
    requires { Cut line.now span.from span.to × Fit t.now × IsState state.now × Room out.old size }
    ensures { Does (inserts_in (slice span.from span.to line.now) t.now) out.old state.now size out.new state.now result }
{
    match t[0] {
        40 => put(out, size, &t[1..2]),
        41 => put(out, size, part(line, state, Text::Tag(span))),
        56..=63 => put_value(value(state, t[1]), out, size),
        _ => put(out, size, part(line, state, Text::Entry(t[1]))),
    }
}
