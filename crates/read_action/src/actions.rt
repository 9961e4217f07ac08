// The replacement of a macro, and what is waited for before it.
ghost use Rattle.std.specs.Prelude.{◌≡◌, true, false, ◌≤◌, ◌*◌, ◌+◌, ◌-◌, length};
ghost use Rattle.macros.specs.Macro.{mark_byte};
ghost use Rattle.read_scan.specs.Scan.{Reached, Here, fault_of};
ghost use Rattle.read_call.specs.Call.{mark_of};
ghost use Rattle.read_action.specs.Action.{SymbolAt, QuoteAt, FrontAt, IsMark, ActionFrom, EscapeFrom, ReplacedFrom, ReplacementRead, wrong_tag};

use form_items::codes::{TAG, TEXT};
use form_items::put_item;
use read_bytes::{escaped_byte, is_break};
use read_call::Site;
use read_call::calls::call;
use read_ends::or_zeros;
use read_number::{digits, unclosed};
use read_scan::scan::{any_byte, next_byte};
use read_scan::{FileFault, ReadError};

// BETWEEN PATTERN AND REPLACEMENT: "other text is ignored, but a `'` or `;` out of turn is 12"

// The symbol, `=` or `<`, with its place.
fn find_symbol(s: &[u8], a: usize, first: usize) -> Result<(u8, usize), ReadError>
    requires { Reached s.now a first }
    ensures { SymbolAt s.now a first result }
{
    let mut at = first;
    loop {
        let (b, q) = next_byte(s, a, at)?;
        match b {
            b'=' | b'<' => return Ok((b, q)),
            b'\'' | b';' => return Err(FileFault::Incomplete.at(q)),
            _ => at = q + 1,
        }
    }
}

// The place of the replacement's first quote.
fn find_quote(s: &[u8], a: usize, first: usize) -> Result<usize, ReadError>
    requires { Reached s.now a first }
    ensures { QuoteAt s.now a first result }
{
    let mut at = first;
    loop {
        let (b, q) = next_byte(s, a, at)?;
        match b {
            b'\'' => return Ok(q),
            b';' => return Err(FileFault::Incomplete.at(q)),
            _ => at = q + 1,
        }
    }
}

// The symbol, with the place of the replacement's first quote.
pub fn find_replacement(s: &[u8], a: usize, first: usize) -> Result<(u8, usize), ReadError>
    requires { Reached s.now a first }
    ensures { FrontAt s.now a first result }
{
    let (b, y) = find_symbol(s, a, first)?;
    let z = find_quote(s, a, y + 1)?;
    Ok((b, z))
}

// REPLACEMENT

// `&` or `#`.
pub fn is_mark(b: u8) -> bool
    ensures { IsMark b result }
{
    matches!(b, b'&' | b'#')
}

// The sign of a stack's call or, if counter, of a counter's.
#[tactic(auto, unfolding(macros::specs::Macro::mark_byte))]
fn mark_byte(counter: bool) -> u8
    ensures { result ≡ mark_byte (mark_of counter) }
{
    if counter { b'#' } else { b'&' }
}

// The `&` or, if counter, the `#` at a place: a literal, if no `(` follows.
fn marked(
    s: &[u8],
    out: &mut [u8],
    a: usize,
    at: usize,
    n: usize,
    counter: bool,
    tags: usize,
) -> Result<(usize, usize), ReadError>
    requires { Here s.now a at (mark_byte (mark_of counter)) × (n + 2 * (a + 513 - at) ≤ length out.old) × (tags ≤ 99) }
    ensures { ActionFrom s.now a at out.old out.new n tags result }
{
    let (b, q) = next_byte(s, a, at + 1)?;
    if b == b'(' {
        return call(s, out, a, q + 1, n, counter, Site::Replacement, tags);
    }
    put_item(out, n, TEXT, mark_byte(counter));
    Ok((q, n + 2))
}

// What a byte that `{n}` cannot have shows: it is no open part of its own.
fn tag_fault(b: u8) -> FileFault
    ensures { fault_of result ≡ wrong_tag b }
{
    match b {
        b';' | b'\n' => FileFault::Incomplete,
        _ => FileFault::BadCall,
    }
}

// `{n}`, whose `{` stands at a place: if the pattern has no such tag, the `}` is a wrong byte, 16.
fn tag_part(
    s: &[u8],
    out: &mut [u8],
    a: usize,
    at: usize,
    n: usize,
    tags: usize,
) -> Result<(usize, usize), ReadError>
    requires { Here s.now a at 123 × (n + 2 * (a + 513 - at) ≤ length out.old) × (tags ≤ 99) }
    ensures { ActionFrom s.now a at out.old out.new n tags result }
{
    let number = digits(s, a, at + 1, false)?;
    if unclosed(number.behind, b'}', number.value, tags as u64) {
        return Err(tag_fault(number.behind).at(number.place));
    }
    put_item(out, n, TAG, number.value.unwrap() as u8);
    Ok((number.place + 1, n + 2))
}

// The byte behind the `\` at a place.
fn escape_part(
    s: &[u8],
    out: &mut [u8],
    a: usize,
    at: usize,
    n: usize,
) -> Result<(usize, usize), ReadError>
    requires { Here s.now a at 92 × (n + 2 * (a + 513 - at) ≤ length out.old) }
    ensures { EscapeFrom s.now a at out.old out.new n result }
{
    let (e, z) = any_byte(s, a, at + 1)?;
    put_item(out, n, TEXT, escaped_byte(e));
    Ok((z + 1, n + 2))
}

// One part of a replacement, from its first byte b on, which is no quote.
fn action(
    s: &[u8],
    out: &mut [u8],
    a: usize,
    at: usize,
    b: u8,
    n: usize,
    tags: usize,
) -> Result<(usize, usize), ReadError>
    requires { Here s.now a at b × (b ≡ 39 → ⊥) × (n + 2 * (a + 513 - at) ≤ length out.old) × (tags ≤ 99) }
    ensures { ActionFrom s.now a at out.old out.new n tags result }
{
    if b == b'\\' {
        return escape_part(s, out, a, at, n);
    }
    if b == b'{' {
        return tag_part(s, out, a, at, n, tags);
    }
    if is_mark(b) {
        return marked(s, out, a, at, n, b == b'#', tags);
    }
    if is_break(b) {
        return Err(FileFault::Incomplete.at(at));
    }
    put_item(out, n, TEXT, b);
    Ok((at + 1, n + 2))
}

// A replacement, from behind its first quote to behind its last; its items from `start` on.
fn replacement_items(
    s: &[u8],
    out: &mut [u8],
    a: usize,
    first: usize,
    start: usize,
    tags: usize,
) -> Result<(usize, usize), ReadError>
    requires { Reached s.now a first × (start + 2 * (a + 513 - first) ≤ length out.old) × (tags ≤ 99) }
    ensures { ReplacedFrom s.now a first out.old out.new start tags result }
{
    let mut at = first;
    let mut n = start;
    loop {
        let (b, q) = next_byte(s, a, at)?;
        if b == b'\'' {
            return Ok((q + 1, n));
        }
        (at, n) = action(s, out, a, q, b, n, tags)?;
    }
}

// Reads a replacement; a refusal leaves zeros in the lent bytes.
pub fn replacement(
    s: &[u8],
    out: &mut [u8],
    a: usize,
    first: usize,
    start: usize,
    tags: usize,
) -> Result<(usize, usize), ReadError>
    requires { Reached s.now a first × (start + 2 * (a + 513 - first) ≤ length out.old) × (tags ≤ 99) }
    ensures { ReplacementRead s.now a first out.old out.new start tags result }
{
    let read = replacement_items(s, out, a, first, start, tags);
    or_zeros(out, read)
}
