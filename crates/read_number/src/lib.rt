// Numbers of a macro file: digits of any number, taken by their value.
#![tactic(auto)]

ghost use Rattle.std.specs.Prelude.{◌≡◌, true, ◌≤◌, ◌*◌, ◌+◌, ◌-◌};
ghost use Rattle.macros.specs.Bounds.{most_counter};
ghost use Rattle.macros.specs.Macro.{digit};
ghost use Rattle.read_scan.specs.Scan.{Reached};
ghost use Rattle.read_number.specs.Number.{Counts, Unclosed, most};

use read_bytes::is_digit;
use read_scan::ReadError;
use read_scan::scan::next_byte;

// A number, at most 1,000,000,000, if it has a digit, and the byte behind it with its place.
#[derive(Clone, Copy, Debug, PartialEq, Eq)]
pub struct Number {
    pub value: Option<u64>,
    pub behind: u8,
    pub place: usize,
}

// Numbers are kept up to one more than the largest counter, so that any number of digits has a value.
const CAP: u64 = 1_000_000_000;

// A number with one digit more.
fn with_digit(n: u64, b: u8) -> u64
    requires { (n ≤ most_counter + 1) × (digit b ≡ true) }
    ensures { (result ≡ most (n * 10 + (b - 48))) × (result ≤ most_counter + 1) }
{
    (n * 10 + u64::from(b - b'0')).min(CAP)
}

// Digits of any number, with skips between them, and spaces in a call.
pub fn digits(s: &[u8], a: usize, first: usize, spaces: bool) -> Result<Number, ReadError>
    requires { Reached s.now a first }
    ensures { Counts s.now a first spaces result }
{
    let mut at = first;
    let mut value = None;
    loop {
        // `?` would hand on the refusal out of reach of an edit of its fault or place.
        let (b, q) = match next_byte(s, a, at) {
            Ok(found) => found,
            Err(e) => return Err(e),
        };
        if is_digit(b) {
            value = Some(with_digit(value.unwrap_or(0), b));
        } else if b != b' ' || !spaces {
            return Ok(Number {
                value,
                behind: b,
                place: q,
            });
        }
        at = q + 1;
    }
}

// Whether a number, which may have no digit, is not closed by `close`, or is none from 1 to `top`.
pub fn unclosed(behind: u8, close: u8, value: Option<u64>, top: u64) -> bool
    ensures { Unclosed behind close value top result }
{
    behind != close || value.is_none_or(|v| v < 1 || top < v)
}
