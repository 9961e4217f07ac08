// Reads the members of a class and writes their items. Everywhere s is the file, a the place where the macro begins, and out the lent bytes.
ghost use Rattle.std.specs.Prelude.{◌≡◌, true, ◌≤◌, ◌+◌, length};
ghost use Rattle.read_scan.specs.Scan.{Reached};
ghost use Rattle.form_items.specs.Items.{Wrote};
ghost use Rattle.read_class.specs.Class.{Meeting, Plain, Taking, pending, last_items, Room, Classing, ClassRead};

use crate::Last;
use form_items::codes::{CLASS_END, RANGE, RANGE_END, SINGLE};
use form_items::put_item;
use form_marks::is_range;
use read_bytes::{escaped_byte, is_break};
use read_ends::or_zeros;
use read_scan::scan::any_byte;
use read_scan::{FileFault, ReadError};

// A byte of a class, whether it stands there without a `\`, and its place. There `'`, `;` and line feed need `\`, and no skip begins.
fn class_byte(s: &[u8], a: usize, at: usize) -> Result<(u8, bool, usize), ReadError>
    requires { Reached s.now a at }
    ensures { Meeting s.now a at result }
{
    let (b, q) = any_byte(s, a, at)?;
    if is_break(b) {
        return Err(FileFault::Incomplete.at(q));
    }
    if b != b'\\' {
        return Ok((b, true, q));
    }
    let (e, z) = any_byte(s, a, q + 1)?;
    Ok((escaped_byte(e), false, z))
}

// One member more: what is last then, and the end of what is written. None for a bad range.
// A member that a raw dash follows may begin a range, so each is written when the next is known.
fn take_member(out: &mut [u8], n: usize, last: Last, c: u8, raw: bool) -> Option<(Last, usize)>
    requires { (raw ≡ true → Plain c × (c ≡ 93 → ⊥)) × (n + pending last ≤ length out.old) }
    ensures { Taking last c raw out.old out.new n result }
{
    match last {
        Last::Free => Some((Last::Member(c), n)),
        Last::Member(m) if raw && c == b'-' => Some((Last::Dash(m), n)),
        Last::Member(m) => {
            put_item(out, n, SINGLE, m);
            Some((Last::Member(c), n + 2))
        }
        Last::Dash(m) if is_range(m, c) => {
            put_item(out, n, RANGE, m);
            put_item(out, n + 2, RANGE_END, c);
            Some((Last::Free, n + 4))
        }
        Last::Dash(_) => None,
    }
}

// What is last, at the `]`: a dash there is a member.
fn put_last(out: &mut [u8], n: usize, last: Last) -> usize
    requires { n + pending last ≤ length out.old }
    ensures { Wrote out.old out.new n (last_items last) × (result ≡ n + pending last) }
{
    match last {
        Last::Free => n,
        Last::Member(m) => {
            put_item(out, n, SINGLE, m);
            n + 2
        }
        Last::Dash(m) => {
            put_item(out, n, SINGLE, m);
            put_item(out, n + 2, SINGLE, b'-');
            n + 4
        }
    }
}

// The members of a class up to its `]`, written from `from` on, with an end behind them.
fn member_items(
    s: &[u8],
    out: &mut [u8],
    a: usize,
    first: usize,
    from: usize,
) -> Result<(usize, usize), ReadError>
    requires { Reached s.now a first × Room out.old a first from }
    ensures { Classing s.now a first out.old out.new from result }
{
    let mut at = first;
    let mut n = from;
    let mut last = Last::Free;
    loop {
        let (c, raw, q) = class_byte(s, a, at)?;
        if raw && c == b']' {
            let end = put_last(out, n, last);
            if end == from {
                return Err(FileFault::BadClass.at(q));
            }
            put_item(out, end, CLASS_END, 0);
            return Ok((q + 1, end + 2));
        }
        (last, n) = take_member(out, n, last, c, raw).ok_or(FileFault::BadClass.at(q))?;
        at = q + 1;
    }
}

// Reads the members of a class, as member_items; a refusal leaves zeros in the lent bytes.
pub fn members(
    s: &[u8],
    out: &mut [u8],
    a: usize,
    first: usize,
    from: usize,
) -> Result<(usize, usize), ReadError>
    requires { Reached s.now a first × Room out.old a first from }
    ensures { ClassRead s.now a first out.old out.new from result }
{
    let read = member_items(s, out, a, first, from);
    or_zeros(out, read)
}
