// A pattern written out, from its items.
#![tactic(auto)]

ghost use Rattle.std.specs.Prelude.{◌≡◌, ◌∷◌, ◌%◌, ◌≤◌, ◌<◌, ltb, length};
ghost use Rattle.macros.specs.Macro.{pick};
ghost use Rattle.macros.specs.Write.{byte};
ghost use Rattle.write_put.specs.Puts.{short_text, Puts, Counts};
ghost use Rattle.write_pattern.specs.Items.{closure_text, unit_text, brace_byte, member_text, head_text, tail_text, pattern_text};

use form_marks::{is_class_mark, is_pattern_mark};
use write_put::{Short, count, end_of, marked, put};

// `*` or `*-`, by an element's code.
fn closure(code: u8) -> Short
    ensures { short_text result ≡ closure_text code }
{
    match code % 4 {
        1 => Short::One(b'*'),
        2 => Short::Two(b'*', b'-'),
        _ => Short::Nothing,
    }
}

// A literal, `?n` or a call; a kind has one digit.
fn unit(code: u8, b: u8) -> Short
    ensures { short_text result ≡ unit_text code b }
{
    match code {
        ..12 => marked(is_pattern_mark(b), b),
        12..16 => Short::Two(b'?', b'0' + b % 10),
        16..20 => Short::Four(b'&', b'(', b, b')'),
        _ => Short::Four(b'#', b'(', b, b')'),
    }
}

// A member, one end of a range, or the class's end.
fn member(code: u8, b: u8) -> Short
    ensures { short_text result ≡ member_text code b }
{
    match code {
        32 => marked(is_class_mark(b), b),
        33 => Short::Two(b, b'-'),
        34 => Short::One(b),
        _ => Short::One(b']'),
    }
}

fn brace(code: u8) -> u8
    ensures { result ≡ brace_byte code }
{
    match code {
        1 => b'{',
        2 => b'}',
        3 => b'^',
        _ => b'$',
    }
}

// An item without its closure.
fn head(code: u8, b: u8) -> Short
    ensures { short_text result ≡ head_text code b }
{
    match code {
        ..8 => Short::One(brace(code)),
        8..24 => unit(code, b),
        24..28 => Short::One(b'['),
        28..32 => Short::Two(b'[', b'~'),
        _ => member(code, b),
    }
}

// The closure of an item: a class has it at its end, and `held` is the class's code.
fn tail(held: u8, code: u8) -> Short
    ensures { short_text result ≡ tail_text held code }
{
    match code {
        ..8 => Short::Nothing,
        8..24 => closure(code),
        24..35 => Short::Nothing,
        _ => closure(held),
    }
}

// A quote and the items of a pattern.
pub fn put_pattern(file: &mut [u8], start: usize, items: &[u8]) -> usize
    requires { (length file.old ≤ 32768) × (length items.now % 2 ≡ 0) × (length items.now ≤ 1024) }
    ensures { Puts start (39 ∷ pattern_text 0 items.now) file.old file.new result }
{
    let mut n = put(file, start, Short::One(b'\''));
    let mut held: u8 = 0;
    for item in items.chunks_exact(2) {
        let code = item[0];
        let m = put(file, n, head(code, item[1]));
        n = put(file, m, tail(held, code));
        held = element_code(held, code);
    }
    n
}

// The code of the last element: members are behind their class.
fn element_code(held: u8, code: u8) -> u8
    ensures { result ≡ pick (ltb code 32) code held }
{
    if code < 32 { code } else { held }
}

// COUNTING, without a file

// The bytes of a byte that is one of the marks or not.
fn marked_size(mark: bool, b: u8) -> usize
    ensures { (result ≡ length (byte mark b)) × (result ≤ 4) }
{
    if mark { 2 } else { 1 }
}

// The bytes of a literal, `?n` or a call.
fn unit_size(code: u8, b: u8) -> usize
    ensures { (result ≡ length (unit_text code b)) × (result ≤ 4) }
{
    match code {
        ..12 => marked_size(is_pattern_mark(b), b),
        12..16 => 2,
        _ => 4,
    }
}

// The bytes of a member, of one end of a range, or of the class's end.
fn member_size(code: u8, b: u8) -> usize
    ensures { (result ≡ length (member_text code b)) × (result ≤ 4) }
{
    match code {
        32 => marked_size(is_class_mark(b), b),
        33 => 2,
        _ => 1,
    }
}

// The bytes of an item without its closure.
fn head_size(code: u8, b: u8) -> usize
    ensures { (result ≡ length (head_text code b)) × (result ≤ 4) }
{
    match code {
        ..8 => 1,
        8..24 => unit_size(code, b),
        24..28 => 1,
        28..32 => 2,
        _ => member_size(code, b),
    }
}

// Counts the bytes of a pattern's items.
pub fn count_pattern(start: usize, items: &[u8]) -> usize
    requires { length items.now % 2 ≡ 0 }
    ensures { Counts start (pattern_text 0 items.now) result }
{
    let mut n = start;
    let mut held: u8 = 0;
    for item in items.chunks_exact(2) {
        let code = item[0];
        let m = end_of(512, n, head_size(code, item[1]));
        n = count(m, tail(held, code));
        held = element_code(held, code);
    }
    n
}
