// Reads a pattern and writes its items. Everywhere s is the file, a the place where the macro begins, and out the lent bytes.
ghost use Rattle.std.specs.Prelude.{◌≡◌, ◌≤◌, ◌<◌, ◌+◌, length};
ghost use Rattle.macros.specs.Bounds.{most_tags};
ghost use Rattle.macros.specs.Macro.Piece.{left, right};
ghost use Rattle.form_table.specs.Form.{piece_items};
ghost use Rattle.read_scan.specs.Scan.{Reached};
ghost use Rattle.form_items.specs.Items.{Wrote};
ghost use Rattle.read_class.specs.Class.{Room};
ghost use Rattle.read_pattern.specs.Pattern.{Reads, Begins, Starts, behind_left, behind_right};

use crate::{Inside, MOST_TAGS, PatternSoFar, Whole};
use form_element::{Closure, Element, Unit, put_element};
use read_element::element::piece;
use read_scan::scan::next_byte;
use read_scan::{FileFault, MOST_MACRO_BYTES, ReadError};

// A left brace: one tag more.
fn open_tag(out: &mut [u8], far: PatternSoFar) -> PatternSoFar
    requires { (far.tags < most_tags) × (far.used + 1 < length out.old) }
    ensures { (result ≡ behind_left far) × Wrote out.old out.new far.used (piece_items left) }
{
    let brace = Element {
        unit: Unit::Left,
        closure: Closure::Once,
    };
    put_element(out, far.used, brace);
    PatternSoFar {
        tags: far.tags + 1,
        used: far.used + 2,
        ..far
    }
}

// A right brace: the tag is complete.
fn close_tag(out: &mut [u8], far: PatternSoFar) -> PatternSoFar
    requires { far.used + 1 < length out.old }
    ensures { (result ≡ behind_right far) × Wrote out.old out.new far.used (piece_items right) }
{
    let brace = Element {
        unit: Unit::Right,
        closure: Closure::Once,
    };
    put_element(out, far.used, brace);
    PatternSoFar {
        used: far.used + 2,
        ..far
    }
}

// Reads up to a right brace or the closing quote, and calls itself for the inside of each brace, where a quote is 15.
fn inside(
    s: &[u8],
    out: &mut [u8],
    a: usize,
    first: usize,
    from: PatternSoFar,
) -> Result<Inside, ReadError>
    requires { Reached s.now a first × (from.tags ≤ most_tags) × Room out.old a first from.used }
    ensures { Reads s.now a first from out.old out.new result }
{
    let mut at = first;
    let mut far = from;
    loop {
        let (b, q) = next_byte(s, a, at)?;
        match b {
            b'}' => return Ok(Inside::Closed(q, far)),
            b'\'' => return Ok(Inside::Quote(q, far)),
            b'{' => {
                if MOST_TAGS <= far.tags {
                    return Err(FileFault::BadBrace.at(q));
                }
                let deeper = open_tag(out, far);
                match inside(s, out, a, q + 1, deeper)? {
                    Inside::Closed(z, seen) => {
                        far = close_tag(out, seen);
                        at = z + 1;
                    }
                    Inside::Quote(z, _) => return Err(FileFault::BadBrace.at(z)),
                }
            }
            _ => {
                let (z, n) = piece(s, out, a, q, b, far.used)?;
                far = PatternSoFar {
                    some: true,
                    used: n,
                    ..far
                };
                at = z;
            }
        }
    }
}

// The pieces of a whole pattern from `at` on, which is behind its first quote; their items are written from n on.
// A right brace that ends them is unmatched.
fn pieces(s: &[u8], out: &mut [u8], a: usize, at: usize, n: usize) -> Result<Whole, ReadError>
    requires { Reached s.now a at × Room out.old a at n }
    ensures { Begins s.now a at out.old out.new n result }
{
    let none = PatternSoFar {
        tags: 0,
        some: false,
        used: n,
    };
    match inside(s, out, a, at, none)? {
        Inside::Closed(q, _) => Err(FileFault::BadBrace.at(q)),
        Inside::Quote(q, far) => {
            if !far.some {
                return Err(FileFault::NoElement.at(q));
            }
            if MOST_MACRO_BYTES <= q - a {
                return Err(FileFault::MacroTooLong.at(q));
            }
            Ok(Whole {
                place: q + 1,
                tags: far.tags,
                used: far.used,
            })
        }
    }
}

// The pattern from `at` on, as in `pieces`; a refusal leaves zeros in the lent bytes.
pub fn whole(s: &[u8], out: &mut [u8], a: usize, at: usize, n: usize) -> Result<Whole, ReadError>
    requires { Reached s.now a at × Room out.old a at n }
    ensures { Starts s.now a at out.old out.new n result }
{
    let read = pieces(s, out, a, at, n);
    if read.is_err() {
        out.fill(0);
    }
    read
}
