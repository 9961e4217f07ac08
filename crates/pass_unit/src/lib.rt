// A pattern's units: whether a copy stands at a place, and how wide it is. Everywhere at is the place of the element's item.
#![tactic(auto)]

ghost use Rattle.std.specs.Prelude.{◌≡◌, [], ◌∷◌, ◌+◌, ◌≤◌, ◌<◌, length, drop};
ghost use Rattle.macros.specs.Macro.{within};
ghost use Rattle.macros.specs.Write.{digits};
ghost use Rattle.form_table.specs.Form.{piece_items, member_items, members_items};
ghost use Rattle.lines.specs.Matching.{byte_fits, begins, is_member};
ghost use Rattle.form_state.specs.Access.{IsState, OfState};
ghost use Rattle.pass_unit.specs.Pattern.{OfPiece};
ghost use Rattle.pass_unit.specs.Pieces.{members_of, holds, fit_u, led_to, lead_of, Lettered, IsUnit, SomeMembers, OfMembers, FirstMember, OfFirst, OneByte, Copying, Leading, Wide};

use form_element::{Closure, Element, Unit};
use form_items::codes::{CLASS_END, SINGLE};
use form_state::{entry, value};
use kinds::is_kind;

// Whether b stands from a to z.
fn in_range(a: u8, z: u8, b: u8) -> bool
    ensures { result ≡ within a z b }
{
    a <= b && b <= z
}

// Whether the member at a place is b, or a range with b.
fn has_byte(items: &[u8], i: usize, b: u8) -> bool
    requires { FirstMember items.now i }
    ensures { OfFirst items.now i (λ m. result ≡ is_member (m ∷ []) b) }
{
    if items[i] == SINGLE {
        b == items[i + 1]
    } else {
        in_range(items[i + 1], items[i + 3], b)
    }
}

// The bytes of the items of the member at a place.
fn member_size(items: &[u8], i: usize) -> usize
    requires { FirstMember items.now i }
    ensures { OfFirst items.now i (λ m. result ≡ length (member_items m)) }
{
    if items[i] == SINGLE { 2 } else { 4 }
}

// Whether b is in the members whose items begin at a place.
fn is_member(items: &[u8], from: usize, b: u8) -> bool
    requires { SomeMembers items.now from }
    ensures { OfMembers items.now from (λ ms. result ≡ is_member ms b) }
{
    let mut i = from;
    while items[i] != CLASS_END {
        if has_byte(items, i, b) {
            return true;
        }
        i += member_size(items, i);
    }
    false
}

// The place behind the members.
fn members_end(items: &[u8], from: usize) -> usize
    requires { SomeMembers items.now from }
    ensures { OfMembers items.now from (λ ms. result ≡ from + length (members_items ms)) }
{
    let mut i = from;
    while items[i] != CLASS_END {
        i += member_size(items, i);
    }
    i + 2
}

// The place behind a piece.
pub fn behind(items: &[u8], at: usize, element: Element) -> usize
    requires { IsUnit items.now at element.unit }
    ensures { OfPiece items.now at (λ e. result ≡ at + length (piece_items e)) }
{
    match element.unit {
        Unit::Class | Unit::ClassNot => members_end(items, at + 2),
        _ => at + 2,
    }
}

// Whether the byte b is a copy of an element's unit.
fn is_copy(items: &[u8], kinds: &[u8; 256], at: usize, element: Element, b: u8) -> bool
    requires { OneByte items.now kinds.now at element.unit }
    ensures { OfPiece items.now at (λ e. result ≡ holds element.unit (members_of e) b) }
{
    match element.unit {
        Unit::Literal(c) => c == b,
        Unit::Kind(n) => is_kind(kinds, b, n),
        Unit::Class => is_member(items, at + 2, b),
        Unit::ClassNot => !is_member(items, at + 2, b),
        _ => false,
    }
}

// Whether a copy of one byte stands at p.
fn one_at(
    items: &[u8],
    kinds: &[u8; 256],
    line: &[u8],
    at: usize,
    element: Element,
    p: usize,
) -> bool
    requires { OneByte items.now kinds.now at element.unit }
    ensures { OfPiece items.now at (λ e. result ≡ byte_fits (holds element.unit (members_of e)) (drop p line.now)) }
{
    p < line.len() && is_copy(items, kinds, at, element, line[p])
}

// Whether a text stands in line from p on.
fn text_at(text: &[u8], line: &[u8], p: usize) -> bool
    requires { p ≤ length line.now }
    ensures { result ≡ begins text.now (drop p line.now) }
{
    let end = p + text.len();
    end <= line.len() && text == &line[p..end]
}

// The place behind a digit that must stand at p.
fn digit_at(n: u32, line: &[u8], p: usize) -> Option<usize>
    requires { (n < 10) × (p ≤ length line.now) }
    ensures { result ≡ led_to (begins ((48 + n) ∷ []) (drop p line.now)) (p + 1) }
{
    let digit = b'0' + n as u8;
    if p < line.len() && line[p] == digit {
        return Some(p + 1);
    }
    None
}

// The place behind the digits of n, which must stand at p: those before the last, and then the last. With `?` it is a tenth slower.
fn number_at(n: u32, line: &[u8], p: usize) -> Option<usize>
    requires { p ≤ length line.now }
    ensures { result ≡ led_to (begins (digits n) (drop p line.now)) (p + length (digits n)) }
{
    if n < 10 {
        return digit_at(n, line, p);
    }
    let Some(q) = number_at(n / 10, line, p) else {
        return None;
    };
    digit_at(n % 10, line, q)
}

// Whether the digits of n stand at p.
fn has_number(n: u32, line: &[u8], p: usize) -> bool
    requires { p ≤ length line.now }
    ensures { result ≡ begins (digits n) (drop p line.now) }
{
    number_at(n, line, p).is_some()
}

// How many digits n has.
fn number_width(n: u32) -> usize
    ensures { result ≡ length (digits n) }
{
    let mut w: usize = 1;
    let mut m = n;
    while 10 <= m {
        m /= 10;
        w += 1;
    }
    w
}

// Whether a copy of an element's unit stands at p.
pub fn copy_at(
    items: &[u8],
    kinds: &[u8; 256],
    state: &[u8],
    line: &[u8],
    at: usize,
    element: Element,
    p: usize,
) -> bool
    requires { Copying items.now kinds.now state.now line.now at element.unit p }
    ensures { OfPiece items.now at (λ e. OfState state.now (λ st. result ≡ fit_u st element.unit (members_of e) p (drop p line.now))) }
{
    match element.unit {
        Unit::StackCall(i) => text_at(entry(state, i), line, p),
        Unit::CounterCall(i) => has_number(value(state, i), line, p),
        Unit::Start => p == 0,
        Unit::End => p == line.len(),
        Unit::Left | Unit::Right => true,
        _ => one_at(items, kinds, line, at, element, p),
    }
}

// The width of a copy of an element's unit.
pub fn width_of(state: &[u8], element: Element) -> usize
    requires { IsState state.now × Lettered element.unit }
    ensures { Wide state.now element.unit result }
{
    match element.unit {
        Unit::StackCall(i) => entry(state, i).len(),
        Unit::CounterCall(i) => number_width(value(state, i)),
        Unit::Start | Unit::End | Unit::Left | Unit::Right => 0,
        _ => 1,
    }
}

// The place behind the copies that the closure must have at p.
pub fn lead_at(
    items: &[u8],
    kinds: &[u8; 256],
    state: &[u8],
    line: &[u8],
    at: usize,
    element: Element,
    w: usize,
    p: usize,
) -> Option<usize>
    requires { Leading items.now kinds.now state.now line.now at element.unit w p }
    ensures { OfPiece items.now at (λ e. OfState state.now (λ st. result ≡ lead_of element.closure (fit_u st element.unit (members_of e) p (drop p line.now)) w p)) }
{
    if let Closure::ZeroOrMore = element.closure {
        return Some(p);
    }
    if copy_at(items, kinds, state, line, at, element, p) {
        return Some(p + w);
    }
    None
}
