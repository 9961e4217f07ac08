// Bytes as lower case hex, `-` for none.
ghost use Rattle.std.specs.Prelude.{◌≤◌, ◌<◌, length, IfSome};

use program_out::put_text;
use std::io::Write;

// Decodes the hex from a place on, in place, to the front of its memory: no byte is written over before it is read. Answers how many bytes
// were decoded, if it is hex.
pub(crate) fn decode(text: &mut [u8], from: usize) -> Option<usize>
    requires { from ≤ length text.old }
    ensures { IfSome result (λ size. size ≤ length text.old) }
{
    let digits = text.len() - from;
    if digits == 1 && text[from] == b'-' {
        return Some(0);
    }
    if digits == 0 || digits % 2 == 1 {
        return None;
    }
    for k in 0..digits / 2 {
        let high = value(text[from + 2 * k])?;
        let low = value(text[from + 2 * k + 1])?;
        text[k] = (high << 4) | low;
    }
    Some(digits / 2)
}

// A digit's value.
fn value(b: u8) -> Option<u8> {
    match b {
        b'0'..=b'9' => Some(b - b'0'),
        b'a'..=b'f' => Some(b - b'a' + 10),
        _ => None,
    }
}

// Appends bytes as hex.
pub(crate) fn put_hex<W: Write>(output: &mut W, out: &mut [u8], used: usize, bytes: &[u8]) -> usize
    requires { used ≤ length out.old }
    ensures { result ≤ length out.old }
{
    if bytes.is_empty() {
        return put_text(output, out, used, b"-");
    }
    let mut at = used;
    for b in bytes {
        at = put_text(output, out, at, &[digit(b / 16), digit(b % 16)]);
    }
    at
}

// A digit; there is none above 15.
fn digit(n: u8) -> u8 {
    match n {
        0..=9 => b'0' + n,
        10..=15 => b'a' + (n - 10),
        _ => b'-',
    }
}
