// Reads the text of a call. What each answer says of the machine of the definitions stands in specs/.
#![tactic(auto)]

ghost use Rattle.std.specs.Prelude.{◌≡◌, ◌≤◌, ◌<◌, ◌*◌, ◌+◌, ◌-◌, length};
ghost use Rattle.read_scan.specs.Scan.{Reached, Here};
ghost use Rattle.form_items.specs.Items.{Wrote};
ghost use Rattle.read_text.specs.Text.{Texting, TextFrom, StoreFrom, StoreRead, PutStore, padding};

use form_items::codes::{STORE_TEXT, STORED_SIZE};
use form_items::put_item;
use read_bytes::{escaped_byte, is_break};
use read_ends::or_zeros;
use read_scan::scan::{any_byte, call_byte, next_byte, wrong_byte};
use read_scan::{FileFault, ReadError};

// The bytes of an entry.
const MOST_ENTRY_BYTES: usize = 100;

// A byte of a text that has k bytes so far, from b on, with its last place: a raw quote, `;` or line feed is 12, the 101st byte 16.
fn text_byte(s: &[u8], a: usize, at: usize, b: u8, k: usize) -> Result<(u8, usize), ReadError>
    requires { Here s.now a at b × (b ≡ 58 → ⊥) }
    ensures { Texting s.now a at k result }
{
    if is_break(b) {
        return Err(FileFault::Incomplete.at(at));
    }
    if MOST_ENTRY_BYTES <= k {
        return Err(FileFault::BadCall.at(at));
    }
    if b != b'\\' {
        return Ok((b, at));
    }
    let (e, z) = any_byte(s, a, at + 1)?;
    Ok((escaped_byte(e), z))
}

// A text up to its `:`, written from n on.
fn put_text(
    s: &[u8],
    out: &mut [u8],
    a: usize,
    first: usize,
    n: usize,
) -> Result<(usize, usize), ReadError>
    requires { Reached s.now a first × (n + 2 * (a + 513 - first) ≤ length out.old) }
    ensures { TextFrom s.now a first out.old out.new n result }
{
    let mut at = first;
    let mut k: usize = 0;
    loop {
        let (b, q) = next_byte(s, a, at)?;
        if b == b':' {
            return Ok((q + 1, n + k));
        }
        let (c, z) = text_byte(s, a, q, b, k)?;
        out[n + k] = c;
        at = z + 1;
        k = k + 1;
    }
}

// A zero behind a text that has an odd length; the text stands from n to e.
#[tactic(auto, unfolding(crate::specs::Text::padding, macros::specs::Macro::pick))]
fn pad(out: &mut [u8], n: usize, e: usize) -> usize
    requires { (n ≤ e) × (e < length out.old) }
    ensures { Wrote out.old out.new e (padding (e - n)) × (result ≡ e + length (padding (e - n))) }
{
    if (e - n) % 2 == 0 {
        return e;
    }
    out[e] = 0;
    e + 1
}

// Behind the text from n + 4 to e its zero, before it its length and the item of the letter i with the move m.
fn put_store(out: &mut [u8], n: usize, e: usize, i: u8, m: u8) -> usize
    requires { (n + 4 ≤ e) × (e ≤ n + 104) × (e < length out.old) × (m ≤ 4) }
    ensures { PutStore out.old out.new n e i m result }
{
    let end = pad(out, n + 4, e);
    put_item(out, n + 2, STORED_SIZE, (e - (n + 4)) as u8);
    put_item(out, n, STORE_TEXT + m, i);
    end
}

// Behind the `:` of the letter i with the move m. The text's length is stored when it is known.
fn text_items(
    s: &[u8],
    out: &mut [u8],
    a: usize,
    at: usize,
    n: usize,
    i: u8,
    m: u8,
) -> Result<(usize, usize), ReadError>
    requires { Reached s.now a at × (n + 4 + 2 * (a + 513 - at) ≤ length out.old) × (m ≤ 4) }
    ensures { StoreFrom s.now a at out.old out.new n i m result }
{
    let (q, e) = put_text(s, out, a, at, n + 4)?;
    // `?` would hand on the refusal out of reach of an edit of its fault or place.
    let (b, z) = match call_byte(s, a, q) {
        Ok(found) => found,
        Err(e) => return Err(e),
    };
    if b != b')' {
        return Err(wrong_byte(b).at(z));
    }
    let end = put_store(out, n, e, i, m);
    Ok((z + 1, end))
}

// Reads a call that stores a text, from behind its `:`; a refusal leaves zeros in the lent bytes.
pub fn text_call(
    s: &[u8],
    out: &mut [u8],
    a: usize,
    at: usize,
    n: usize,
    i: u8,
    m: u8,
) -> Result<(usize, usize), ReadError>
    requires { Reached s.now a at × (n + 4 + 2 * (a + 513 - at) ≤ length out.old) × (m ≤ 4) }
    ensures { StoreRead s.now a at out.old out.new n i m result }
{
    let read = text_items(s, out, a, at, n, i, m);
    or_zeros(out, read)
}
