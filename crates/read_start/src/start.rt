// A file before its macros are read, and the places between its macros.
ghost use Rattle.std.specs.Prelude.{◌≡◌, ◌==◌, ◌≤◌, length};
ghost use Rattle.std.specs.List.{position};
ghost use Rattle.read_start.specs.Start.{over, opens, opens_call, turned, Seeks, WholeFile};

use crate::MOST_FILE_BYTES;
use read_scan::{FileFault, ReadError};

// A WHOLE FILE

// The place of the first byte 0, if there is one.
fn first_zero(s: &[u8]) -> Option<usize>
    ensures { result ≡ position (λ b. b == 0) s.now }
{
    s.iter().position(|b| *b == 0)
}

// What refuses a file before its macros are read: its size, then a byte 0.
pub fn whole_file(file: &[u8]) -> Result<(), ReadError>
    ensures { WholeFile file.now result }
{
    if MOST_FILE_BYTES < file.len() {
        return Err(FileFault::FileTooLong.at(MOST_FILE_BYTES));
    }
    match first_zero(file) {
        Some(zero) => Err(FileFault::ZeroByte.at(zero)),
        None => Ok(()),
    }
}

// BETWEEN MACROS: "Before a pattern only `'` and `/` count", and `&(` and `#(`.

// Whether a byte is the first quote of a macro.
fn opens_macro(b: u8, skip: bool) -> bool
    ensures { result ≡ opens b skip }
{
    !skip && b == b'\''
}

// Whether a byte is the `(` of a macro's first call, behind the last byte outside skips.
fn opens_call(b: u8, skip: bool, last: u8) -> bool
    ensures { result ≡ opens_call b skip last }
{
    !skip && (last == b'&' || last == b'#') && b == b'('
}

// Whether a skip is open behind a byte.
#[tactic(auto, unfolding(macros::specs::Macro::pick))]
fn skip_behind(b: u8, skip: bool) -> bool
    ensures { result ≡ turned b skip }
{
    if b == b'/' { !skip } else { skip }
}

// Whether a byte is passed over: a slash, or any byte in a skip.
fn is_over(b: u8, skip: bool) -> bool
    ensures { result ≡ over b skip }
{
    skip || b == b'/'
}

// Where the next macro begins, from `first` on, at a quote or, with its `(` seen, at a `&` or `#`; and the place behind that quote or `(`.
// None: the file ends before one does. A file that ends in a skip is refused.
pub fn next_start(s: &[u8], first: usize) -> Result<Option<(usize, usize)>, ReadError>
    requires { first ≤ length s.now }
    ensures { Seeks s.now first result }
{
    let mut skip = false;
    let mut last = b' ';
    let mut a = first;
    for at in first..s.len() {
        let b = s[at];
        if opens_macro(b, skip) {
            return Ok(Some((at, at + 1)));
        }
        if opens_call(b, skip, last) {
            return Ok(Some((a, at + 1)));
        }
        if !is_over(b, skip) {
            last = b;
            a = at;
        }
        skip = skip_behind(b, skip);
    }
    if skip {
        return Err(FileFault::Incomplete.at(s.len()));
    }
    Ok(None)
}
