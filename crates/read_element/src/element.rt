// Reads an element of a pattern and writes its items. Everywhere s is the file, a the place where the macro begins, and out the lent bytes.
ghost use Rattle.std.specs.Prelude.{◌≡◌, ◌+◌};
ghost use Rattle.macros.specs.Macro.{mark_byte};
ghost use Rattle.macros.specs.Macro.PatternUnit.{call_of};
ghost use Rattle.macros.specs.Read.{kind_digit};
ghost use Rattle.macros.specs.ReadSoFar.Part.{pattern_escape, opened};
ghost use Rattle.form_element.specs.Element.{unit_of};
ghost use Rattle.form_element.specs.declared.Closure.TheVariants.{Once};
ghost use Rattle.read_scan.specs.Scan.{Reached, Here};
ghost use Rattle.read_class.specs.Class.{Room};
ghost use Rattle.read_element.specs.Element.{Joins, Makes, MakesOne, Pieces, PieceRead, Inner, IsClass, at_query, at_mark, at_call, at_class, at_fresh, mark_at, neg_of, got_item};

use crate::Item;
use form_element::{Closure, Element, Unit, put_element};
use read_bytes::{escaped_byte, is_break, is_lower};
use read_class::class::members;
use read_ends::or_zeros;
use read_scan::scan::{any_byte, call_byte, next_byte, wrong_byte};
use read_scan::{FileFault, ReadError};

// An element that ends before a place, with what is written of it up to `end`.
fn item(unit: Unit, closure: Closure, place: usize, end: usize) -> Item
    ensures { result ≡ got_item unit closure place end }
{
    Item {
        element: Element { unit, closure },
        place,
        end,
    }
}

// A unit with the closure that follows it. What is written of the unit ends at end.
fn with_closure(s: &[u8], a: usize, unit: Unit, at: usize, end: usize) -> Result<Item, ReadError>
    requires { Reached s.now a at }
    ensures { Joins s.now a at unit end result }
{
    let (b, q) = next_byte(s, a, at)?;
    if b != b'*' {
        return Ok(item(unit, Closure::Once, q, end));
    }
    let (d, z) = next_byte(s, a, q + 1)?;
    if d == b'-' {
        return Ok(item(unit, Closure::ZeroOrMore, z + 1, end));
    }
    Ok(item(unit, Closure::OneOrMore, z, end))
}

// Behind `\`.
fn escape(s: &[u8], a: usize, at: usize, end: usize) -> Result<Item, ReadError>
    requires { Reached s.now a at }
    ensures { MakesOne s.now a at pattern_escape end result }
{
    let (e, q) = any_byte(s, a, at)?;
    let b = escaped_byte(e);
    with_closure(s, a, Unit::Literal(b), q + 1, end)
}

// "`?` with 1 to 6".
#[tactic(auto, using(std::proofs::lemmas::Bool::Decides::nat_tests), unfolding(macros::specs::Read::kind_digit, macros::specs::Macro::within))]
fn kind_digit(b: u8) -> bool
    ensures { result ≡ kind_digit b }
{
    matches!(b, b'1'..=b'6')
}

// Behind `?`: a kind, or `?` itself.
fn query(s: &[u8], a: usize, at: usize, end: usize) -> Result<Item, ReadError>
    requires { Reached s.now a at }
    ensures { MakesOne s.now a at at_query end result }
{
    let (k, q) = next_byte(s, a, at)?;
    if kind_digit(k) {
        return with_closure(s, a, Unit::Kind(k - b'0'), q + 1, end);
    }
    with_closure(s, a, Unit::Literal(b'?'), q, end)
}

// A call of a stack or of a counter, by its sign.
#[tactic(auto, using(std::proofs::lemmas::Bool::Decides::nat_tests), unfolding(macros::specs::Macro::pick))]
fn call_unit(sign: u8, i: u8) -> Unit
    ensures { result ≡ unit_of (call_of (mark_at sign) i) }
{
    match sign {
        b'&' => Unit::StackCall(i),
        _ => Unit::CounterCall(i),
    }
}

// Behind `&(` or `#(`: a letter and `)`.
fn called(s: &[u8], a: usize, at: usize, end: usize, sign: u8) -> Result<Item, ReadError>
    requires { Reached s.now a at }
    ensures { MakesOne s.now a at (at_call sign) end result }
{
    let (i, q) = call_byte(s, a, at)?;
    if !is_lower(i) {
        return Err(wrong_byte(i).at(q));
    }
    let (b, z) = call_byte(s, a, q + 1)?;
    if b != b')' {
        return Err(wrong_byte(b).at(z));
    }
    with_closure(s, a, call_unit(sign, i), z + 1, end)
}

// Behind `&` or `#`: a call, or the sign itself.
fn marked(s: &[u8], a: usize, at: usize, end: usize, sign: u8) -> Result<Item, ReadError>
    requires { Reached s.now a at × (mark_byte (mark_at sign) ≡ sign) }
    ensures { MakesOne s.now a at (at_mark sign) end result }
{
    let (b, q) = next_byte(s, a, at)?;
    if b == b'(' {
        return called(s, a, q + 1, end, sign);
    }
    with_closure(s, a, Unit::Literal(sign), q, end)
}

// A class behind its `[` or `[~`, with its closure.
fn class_unit(
    s: &[u8],
    out: &mut [u8],
    a: usize,
    at: usize,
    n: usize,
    unit: Unit,
) -> Result<Item, ReadError>
    requires { Reached s.now a at × Room out.old a at n × IsClass unit }
    ensures { Makes s.now a at at (at_class (neg_of unit)) out.old out.new n result }
{
    let (q, end) = members(s, out, a, at, n)?;
    with_closure(s, a, unit, q, end)
}

// Behind `[`: "a leading `~` means the complement".
fn class(s: &[u8], out: &mut [u8], a: usize, at: usize, n: usize) -> Result<Item, ReadError>
    requires { Reached s.now a at × Room out.old a at n }
    ensures { Makes s.now a at at opened out.old out.new n result }
{
    let (b, q) = any_byte(s, a, at)?;
    if b == b'~' {
        return class_unit(s, out, a, q + 1, n, Unit::ClassNot);
    }
    class_unit(s, out, a, q, n, Unit::Class)
}

// The element whose first byte is b; what stands behind its head is written from n on.
fn element(
    s: &[u8],
    out: &mut [u8],
    a: usize,
    at: usize,
    b: u8,
    n: usize,
) -> Result<Item, ReadError>
    requires { Here s.now a at b × Inner b × (b ≡ 94 → ⊥) × (b ≡ 36 → ⊥) × Room out.old a (at + 1) n }
    ensures { Makes s.now a at (at + 1) at_fresh out.old out.new n result }
{
    match b {
        b'*' => Err(FileFault::NoUnit.at(at)),
        b'\\' => escape(s, a, at + 1, n),
        b'[' => class(s, out, a, at + 1, n),
        b'?' => query(s, a, at + 1, n),
        b'&' | b'#' => marked(s, a, at + 1, n, b),
        _ if is_break(b) => Err(FileFault::Incomplete.at(at)),
        _ => with_closure(s, a, Unit::Literal(b), at + 1, n),
    }
}

// What has no closure.
fn once(unit: Unit) -> Element
    ensures { result ≡ record { unit = unit; closure = Once } }
{
    Element {
        unit,
        closure: Closure::Once,
    }
}

// An element, `^` or `$`. Its item stands before a class's members and is stored last, with the closure.
fn one_piece(
    s: &[u8],
    out: &mut [u8],
    a: usize,
    at: usize,
    b: u8,
    n: usize,
) -> Result<(usize, usize), ReadError>
    requires { Here s.now a at b × Inner b × Room out.old a at n }
    ensures { Pieces s.now a at out.old out.new n result }
{
    match b {
        b'^' => {
            put_element(out, n, once(Unit::Start));
            Ok((at + 1, n + 2))
        }
        b'$' => {
            put_element(out, n, once(Unit::End));
            Ok((at + 1, n + 2))
        }
        _ => {
            let item = element(s, out, a, at, b, n + 2)?;
            put_element(out, n, item.element);
            Ok((item.place, item.end))
        }
    }
}

// Reads an element, `^` or `$`; a refusal leaves zeros in the lent bytes.
pub fn piece(
    s: &[u8],
    out: &mut [u8],
    a: usize,
    at: usize,
    b: u8,
    n: usize,
) -> Result<(usize, usize), ReadError>
    requires { Here s.now a at b × Inner b × Room out.old a at n }
    ensures { PieceRead s.now a at out.old out.new n result }
{
    let read = one_piece(s, out, a, at, b, n);
    or_zeros(out, read)
}
