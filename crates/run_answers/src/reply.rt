// The answers to the commands.
ghost use Rattle.std.specs.Prelude.{◌≤◌, length};

use crate::command_words::Command;
use crate::hex::put_hex;
use crate::lends::{no_state, no_table, other_size};
use line_answer::Answer;
use program_out::put_text;
use std::io::Write;

// Writes the answer to a command: `read` gives `ok` and the number of macros, `feed` `NUMBER PLACE PASSES KIND HEXTEXT`, `fresh` `ok`,
// `write` `ok HEXFILE`; a refusal `no NUMBER PLACE`.
pub(crate) fn write_reply<W: Write>(
    output: &mut W,
    out: &mut [u8; 4096],
    text: &[u8; 32768],
    asked: Command,
    answer: Answer,
) {
    let used = match asked {
        Command::Feed(_) => put_line(output, out, text, answer),
        _ if answer.number != 0 => put_refusal(output, out, 0, answer),
        Command::Read => put_count(output, out, answer.length),
        Command::Fresh => put_text(output, out, 0, b"ok"),
        Command::Write => put_file(output, out, text, answer.length),
        Command::Lends => put_lends(output, out),
    };
    let end = put_text(output, out, used, b"\n");
    write_held(output, &out[..end]);
}

// Writes that a line is no command.
pub(crate) fn write_error<W: Write>(output: &mut W) {
    write_held(output, b"error\n");
}

// Writes out what is held. A write that fails is passed over.
fn write_held<W: Write>(output: &mut W, held: &[u8]) {
    let _ = output.write_all(held);
}

// `NUMBER PLACE PASSES KIND HEXTEXT`.
fn put_line<W: Write>(
    output: &mut W,
    out: &mut [u8; 4096],
    text: &[u8; 32768],
    answer: Answer,
) -> usize
    ensures { result ≤ 4096 }
{
    let used = put_numbers(output, out, answer);
    put_hex(output, out, used, first(text, answer.length))
}

// `ok HEXFILE`.
fn put_file<W: Write>(output: &mut W, out: &mut [u8; 4096], text: &[u8; 32768], size: u32) -> usize
    ensures { result ≤ 4096 }
{
    let used = put_text(output, out, 0, b"ok ");
    put_hex(output, out, used, first(text, size))
}

// The first bytes of a text.
fn first(text: &[u8; 32768], size: u32) -> &[u8] {
    &text[..(size as usize).min(32768)]
}

// `ok NUMBER`.
fn put_count<W: Write>(output: &mut W, out: &mut [u8; 4096], n: u32) -> usize
    ensures { result ≤ 4096 }
{
    let a = put_text(output, out, 0, b"ok ");
    put_number(output, out, a, n)
}

// `no NUMBER PLACE` for each refusal of the host.
fn put_lends<W: Write>(output: &mut W, out: &mut [u8; 4096]) -> usize
    ensures { result ≤ 4096 }
{
    let a = put_refusal(output, out, 0, other_size());
    let b = put_text(output, out, a, b"\n");
    let c = put_refusal(output, out, b, no_table());
    let d = put_text(output, out, c, b"\n");
    put_refusal(output, out, d, no_state())
}

// `no NUMBER PLACE`.
fn put_refusal<W: Write>(output: &mut W, out: &mut [u8; 4096], used: usize, answer: Answer) -> usize
    requires { used ≤ 4096 }
    ensures { result ≤ 4096 }
{
    let a = put_text(output, out, used, b"no ");
    let b = put_spaced(output, out, a, answer.number);
    put_number(output, out, b, answer.place)
}

// `NUMBER PLACE PASSES KIND `.
fn put_numbers<W: Write>(output: &mut W, out: &mut [u8; 4096], answer: Answer) -> usize
    ensures { result ≤ 4096 }
{
    let a = put_spaced(output, out, 0, answer.number);
    let b = put_spaced(output, out, a, answer.place);
    let c = put_spaced(output, out, b, answer.passes);
    put_spaced(output, out, c, answer.kind)
}

// A number and a space.
fn put_spaced<W: Write>(output: &mut W, out: &mut [u8; 4096], used: usize, n: u32) -> usize
    requires { used ≤ 4096 }
    ensures { result ≤ 4096 }
{
    let a = put_number(output, out, used, n);
    put_text(output, out, a, b" ")
}

// A number in digits.
fn put_number<W: Write>(output: &mut W, out: &mut [u8; 4096], used: usize, n: u32) -> usize
    requires { used ≤ 4096 }
    ensures { result ≤ 4096 }
{
    let mut digits = [0u8; 20];
    let k = io::decimal(u64::from(n), &mut digits);
    put_text(output, out, used, &digits[..k])
}
