// Calls before a pattern, of a replacement and of commands, from behind their `&(` or `#(` to behind their `)`.
ghost use Rattle.std.specs.Prelude.{◌≡◌, true, false, ◌&&◌, ◌≤◌, ◌<◌, ◌*◌, ◌+◌, ◌-◌, length};
ghost use Rattle.macros.specs.Macro.{digit};
ghost use Rattle.macros.specs.Macro.Mark.{stack};
ghost use Rattle.macros.specs.Read.{is_sign, may_insert, may_store_tag};
ghost use Rattle.read_scan.specs.Scan.{Reached, Here};
ghost use Rattle.read_call.specs.Call.{CallRead, CalledFrom, NamedFrom, Naming, TagNaming, SetFrom, TagFrom, Asks, Starts, signs_in, site_is, mark_of, sign_code};

use crate::{MOST_COUNTER, MOST_ENTRIES, Name, Site, Tail};
use form_bytes::put_number;
use form_items::codes::{
    BEHIND, DIVIDE, INSERT_ENTRY, INSERT_VALUE, MINUS, PLUS, SET_INCREMENT, SET_POINTER, SET_VALUE,
    STILL, STORE_TAG, STORED_TAG,
};
use form_items::put_item;
use read_bytes::is_lower;
use read_ends::or_zeros;
use read_number::{Number, digits, unclosed};
use read_scan::ReadError;
use read_scan::scan::{call_byte, wrong_byte};
use read_text::text_call;

// LETTERS AND THEIR SIGNS

// Whether a byte is a sign, where one may stand.
#[tactic(auto, unfolding(macros::specs::ReadCalls::is_sign))]
fn takes_sign(b: u8, signs: bool) -> bool
    ensures { result ≡ (is_sign b && signs) }
{
    signs && (b == b'+' || b == b'-')
}

// The code of a move by `+` or `-`.
#[tactic(auto, unfolding(crate::specs::Call::sign_code, macros::specs::Macro::pick))]
fn sign_code(b: u8) -> u8
    ensures { result ≡ sign_code b }
{
    if b == b'+' { PLUS } else { MINUS }
}

// A letter behind the sign b.
fn signed_name(s: &[u8], a: usize, at: usize, b: u8, signs: bool) -> Result<Name, ReadError>
    requires { Here s.now a at b × ((is_sign b && signs) ≡ true) }
    ensures { Naming s.now a at b signs result }
{
    let (c, q) = call_byte(s, a, at + 1)?;
    if !is_lower(c) {
        return Err(wrong_byte(c).at(q));
    }
    let (d, z) = call_byte(s, a, q + 1)?;
    Ok(Name {
        letter: c,
        move_code: sign_code(b),
        behind: d,
        place: z,
    })
}

// A letter, perhaps with a sign before or behind it; b is its first byte.
fn name(s: &[u8], a: usize, at: usize, b: u8, signs: bool) -> Result<Name, ReadError>
    requires { Here s.now a at b × (b ≡ 32 → ⊥) }
    ensures { Naming s.now a at b signs result }
{
    if takes_sign(b, signs) {
        return signed_name(s, a, at, b, signs);
    }
    if !is_lower(b) {
        return Err(wrong_byte(b).at(at));
    }
    let (c, q) = call_byte(s, a, at + 1)?;
    if !takes_sign(c, signs) {
        return Ok(Name {
            letter: b,
            move_code: STILL,
            behind: c,
            place: q,
        });
    }
    let (d, z) = call_byte(s, a, q + 1)?;
    Ok(Name {
        letter: b,
        move_code: BEHIND + sign_code(c),
        behind: d,
        place: z,
    })
}

// NUMBERS

// A number, at most `top`, behind the `=`, `,` or `:` of the letter i, and its `)`: if it is out of range, the `)` is a wrong byte, 16.
fn set_call(
    s: &[u8],
    out: &mut [u8],
    a: usize,
    at: usize,
    n: usize,
    code: u8,
    i: u8,
    top: u64,
) -> Result<(usize, usize), ReadError>
    requires { Reached s.now a at × (n + 4 + 2 * (a + 513 - at) ≤ length out.old) × (top ≤ 999999999) }
    ensures { SetFrom s.now a at out.old out.new n code i top result }
{
    let number = digits(s, a, at, true)?;
    if unclosed(number.behind, b')', number.value, top) {
        return Err(wrong_byte(number.behind).at(number.place));
    }
    put_item(out, n, code, i);
    put_number(out, n + 2, number.value.unwrap() as u32);
    Ok((number.place + 1, n + 6))
}

// The `,` behind a tag's number, which must be the byte b, and the letter behind it.
fn tag_name(s: &[u8], a: usize, at: usize, b: u8) -> Result<Name, ReadError>
    requires { Here s.now a at b × (b ≡ 32 → ⊥) × (digit b ≡ false) }
    ensures { TagNaming s.now a at result }
{
    if b != b',' {
        return Err(wrong_byte(b).at(at));
    }
    let (c, q) = call_byte(s, a, at + 1)?;
    name(s, a, q, c, true)
}

// Behind a tag's number v, whose next byte is b: if the pattern has no such tag, the `)` is a wrong byte, 16.
fn tag_call(
    s: &[u8],
    out: &mut [u8],
    a: usize,
    at: usize,
    b: u8,
    n: usize,
    v: u64,
    tags: usize,
) -> Result<(usize, usize), ReadError>
    requires { Here s.now a at b × (b ≡ 32 → ⊥) × (digit b ≡ false) × (n + 2 * (a + 513 - at) ≤ length out.old) × (tags ≤ 99) }
    ensures { TagFrom s.now a at out.old out.new n v tags result }
{
    let named = tag_name(s, a, at, b)?;
    if unclosed(named.behind, b')', Some(v), tags as u64) {
        return Err(wrong_byte(named.behind).at(named.place));
    }
    put_item(out, n, STORE_TAG + named.move_code, named.letter);
    put_item(out, n + 2, STORED_TAG, v as u8);
    Ok((named.place + 1, n + 4))
}

// WHAT A CALL MAY DO

// Whether it may insert: in a replacement only.
#[tactic(auto, unfolding(macros::specs::ReadCalls::may_insert))]
fn may_insert(site: Site) -> bool
    ensures { result ≡ may_insert (site_is site) }
{
    matches!(site, Site::Replacement)
}

// Whether it may store a tag: not before a pattern (02, N2).
#[tactic(auto, unfolding(macros::specs::ReadCalls::may_store_tag))]
fn may_store_tag(site: Site) -> bool
    ensures { result ≡ may_store_tag (site_is site) }
{
    match site {
        Site::BeforePattern => false, // 16 at the number's first digit
        Site::Replacement => true,
        Site::Command => true,
    }
}

// CALLS

// What the byte c behind a letter with the move m asks for in `&(..)`.
fn stack_tail(c: u8, m: u8, site: Site) -> Option<Tail>
    requires { m ≤ 4 }
    ensures { Asks (mark_of false) (site_is site) (signs_in false (site_is site)) c m result }
{
    match c {
        b':' => Some(Tail::Text),
        b'=' if m == 0 => Some(Tail::Set(SET_POINTER, MOST_ENTRIES)),
        b')' if may_insert(site) => Some(Tail::Insert(INSERT_ENTRY + m)),
        _ => None,
    }
}

// What the byte c behind a letter with the move m asks for in `#(..)`.
fn counter_tail(c: u8, m: u8, site: Site) -> Option<Tail>
    requires { m ≤ 4 }
    ensures { Asks (mark_of true) (site_is site) (signs_in true (site_is site)) c m result }
{
    let inserts = may_insert(site);
    match c {
        b',' if m == 0 => Some(Tail::Set(SET_INCREMENT, MOST_COUNTER)),
        b'=' if m == 0 => Some(Tail::Set(SET_VALUE, MOST_COUNTER)),
        b':' if m == 0 && inserts => Some(Tail::Set(DIVIDE, MOST_COUNTER)),
        b')' if inserts => Some(Tail::Insert(INSERT_VALUE + m)),
        _ => None,
    }
}

// What the byte c behind a letter with the move m asks for, in `&(..)` or, if counter, in `#(..)`.
fn tail(c: u8, m: u8, counter: bool, site: Site) -> Option<Tail>
    requires { m ≤ 4 }
    ensures { Asks (mark_of counter) (site_is site) (signs_in counter (site_is site)) c m result }
{
    if counter {
        counter_tail(c, m, site)
    } else {
        stack_tail(c, m, site)
    }
}

// Whether a letter may have a sign: a counter's only where it may insert.
fn signs_in(counter: bool, site: Site) -> bool
    ensures { result ≡ signs_in counter (site_is site) }
{
    !counter || may_insert(site)
}

// A call from its letter on, whose first byte is b.
fn named_call(
    s: &[u8],
    out: &mut [u8],
    a: usize,
    at: usize,
    b: u8,
    n: usize,
    counter: bool,
    site: Site,
) -> Result<(usize, usize), ReadError>
    requires { Here s.now a at b × (b ≡ 32 → ⊥) × Starts counter (site_is site) b × (n + 2 * (a + 513 - at) ≤ length out.old) }
    ensures { NamedFrom s.now a at out.old out.new n (mark_of counter) (site_is site) result }
{
    let named = name(s, a, at, b, signs_in(counter, site))?;
    match tail(named.behind, named.move_code, counter, site) {
        Some(Tail::Text) => text_call(s, out, a, named.place + 1, n, named.letter, named.move_code),
        Some(Tail::Set(code, top)) => set_call(
            s,
            out,
            a,
            named.place + 1,
            n,
            code,
            named.letter,
            top,
        ),
        Some(Tail::Insert(code)) => {
            put_item(out, n, code, named.letter);
            Ok((named.place + 1, n + 2))
        }
        None => Err(wrong_byte(named.behind).at(named.place)),
    }
}

// A call behind its `#(` or, where no tag may be stored, its `&(`: it begins with its letter.
fn letter_call(
    s: &[u8],
    out: &mut [u8],
    a: usize,
    at: usize,
    n: usize,
    counter: bool,
    site: Site,
) -> Result<(usize, usize), ReadError>
    requires { Reached s.now a at × (n + 2 * (a + 513 - at) ≤ length out.old) × (counter ≡ false → may_store_tag (site_is site) ≡ false) }
    ensures { NamedFrom s.now a at out.old out.new n (mark_of counter) (site_is site) result }
{
    let (b, q) = call_byte(s, a, at)?;
    named_call(s, out, a, q, b, n, counter, site)
}

// A call behind its `&(`: a stored tag's begins with a number, any other with its letter.
fn stack_call(
    s: &[u8],
    out: &mut [u8],
    a: usize,
    at: usize,
    n: usize,
    site: Site,
    tags: usize,
) -> Result<(usize, usize), ReadError>
    requires { Reached s.now a at × (n + 2 * (a + 513 - at) ≤ length out.old) × (tags ≤ 99) }
    ensures { CalledFrom s.now a at out.old out.new n stack (site_is site) tags result }
{
    if !may_store_tag(site) {
        return letter_call(s, out, a, at, n, false, site);
    }
    let number = digits(s, a, at, true)?;
    match number.value {
        Some(v) => tag_call(s, out, a, number.place, number.behind, n, v, tags),
        None => named_call(s, out, a, number.place, number.behind, n, false, site),
    }
}

// One call behind its `&(` or, if counter, `#(`.
fn one_call(
    s: &[u8],
    out: &mut [u8],
    a: usize,
    at: usize,
    n: usize,
    counter: bool,
    site: Site,
    tags: usize,
) -> Result<(usize, usize), ReadError>
    requires { Reached s.now a at × (n + 2 * (a + 513 - at) ≤ length out.old) × (tags ≤ 99) }
    ensures { CalledFrom s.now a at out.old out.new n (mark_of counter) (site_is site) tags result }
{
    if counter {
        return letter_call(s, out, a, at, n, true, site);
    }
    stack_call(s, out, a, at, n, site, tags)
}

// Reads one call; a refusal leaves zeros in the lent bytes.
pub fn call(
    s: &[u8],
    out: &mut [u8],
    a: usize,
    at: usize,
    n: usize,
    counter: bool,
    site: Site,
    tags: usize,
) -> Result<(usize, usize), ReadError>
    requires { Reached s.now a at × (n + 2 * (a + 513 - at) ≤ length out.old) × (tags ≤ 99) }
    ensures { CallRead s.now a at out.old out.new n (mark_of counter) (site_is site) tags result }
{
    let read = one_call(s, out, a, at, n, counter, site, tags);
    or_zeros(out, read)
}
