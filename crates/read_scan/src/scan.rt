// The leaves of the reader: bytes behind skips and spaces. In a macro only these know of skips and of the 513th byte.
ghost use Rattle.std.specs.Prelude.{◌≡◌};
ghost use Rattle.read_scan.specs.Scan.{Reached, Passes, Stays, Calls, wrong_call, fault_of};

use crate::{FileFault, MOST_MACRO_BYTES, ReadError};
use read_bytes::is_break;

// The next byte that is in no skip, in the macro that began at a: 18 behind its 513th byte, 12 at the file's end.
pub fn next_byte(s: &[u8], a: usize, first: usize) -> Result<(u8, usize), ReadError>
    requires { Reached s.now a first }
    ensures { Passes s.now a first result }
{
    let mut skip = false;
    for at in first..s.len() {
        if MOST_MACRO_BYTES < at - a {
            return Err(FileFault::MacroTooLong.at(at - 1));
        }
        let b = s[at];
        if b == b'/' {
            skip = !skip;
        } else if !skip {
            return Ok((b, at));
        }
    }
    let end = s.len();
    if MOST_MACRO_BYTES < end - a {
        return Err(FileFault::MacroTooLong.at(end - 1));
    }
    Err(FileFault::Incomplete.at(end))
}

// The byte at a place where no skip can begin.
pub fn any_byte(s: &[u8], a: usize, at: usize) -> Result<(u8, usize), ReadError>
    requires { Reached s.now a at }
    ensures { Stays s.now a at result }
{
    if MOST_MACRO_BYTES < at - a {
        return Err(FileFault::MacroTooLong.at(at - 1));
    }
    if s.len() <= at {
        return Err(FileFault::Incomplete.at(at));
    }
    Ok((s[at], at))
}

// The next byte in a call: "Spaces in calls are ignored".
pub fn call_byte(s: &[u8], a: usize, first: usize) -> Result<(u8, usize), ReadError>
    requires { Reached s.now a first }
    ensures { Calls s.now a first result }
{
    let mut at = first;
    loop {
        let (b, q) = next_byte(s, a, at)?;
        if b != b' ' {
            return Ok((b, q));
        }
        at = q + 1;
    }
}

// What a byte that a call cannot have shows.
#[tactic(auto, unfolding(crate::specs::Scan::wrong_call, macros::specs::Macro::pick))]
pub fn wrong_byte(b: u8) -> FileFault
    ensures { fault_of result ≡ wrong_call b }
{
    if is_break(b) {
        return FileFault::Incomplete;
    }
    FileFault::BadCall
}
