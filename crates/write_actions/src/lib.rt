// A replacement, the commands or the calls before a pattern written out or counted, from their items.
#![tactic(auto)]

ghost use Rattle.std.specs.Prelude.{◌≡◌, [], ◌∷◌, ◌++◌, ◌≤◌, ltb, length, get_or};
ghost use Rattle.macros.specs.Macro.{pick, among};
ghost use Rattle.macros.specs.Write.{text_marks, byte, write_text};
ghost use Rattle.write_put.specs.Puts.{short_text, Puts, Counts};
ghost use Rattle.form_table.specs.Actions.{Held};
ghost use Rattle.write_actions.specs.Items.{name_text, number_sign, call_byte, open_text, end_text, first_text, middle_text, last_text, call_text, action_text, actions_text, Whole};

use form_bytes::number_at;
use form_items::action_size;
use form_marks::is_text_mark;
use write_put::{Counter, InFile, Short, Sink, add_number, decimal, marked};

// A letter with the sign that the call's code asks for, and a byte behind it.
fn name(code: u8, letter: u8, close: u8) -> Short
    ensures { short_text result ≡ name_text code letter ++ (close ∷ []) }
{
    match code % 8 {
        0 => Short::Two(letter, close),
        1 => Short::Three(b'+', letter, close),
        2 => Short::Three(b'-', letter, close),
        3 => Short::Three(letter, b'+', close),
        _ => Short::Three(letter, b'-', close),
    }
}

// A literal.
fn literal(b: u8) -> Short
    ensures { short_text result ≡ byte (among text_marks b) b }
{
    marked(is_text_mark(b), b)
}

// A call's text.
fn add_text<S: Sink>(sink: &mut S, first: usize, text: &[u8]) -> usize
    requires { S.fits sink.old }
    ensures { S.adds first (write_text text.now) sink.old sink.new result }
{
    let mut n = first;
    for b in text {
        n = sink.add(n, literal(*b));
    }
    n
}

// What stands between a letter and its number.
#[tactic(auto, unfolding(crate::specs::Items::number_sign, macros::specs::Macro::pick))]
fn number_sign(code: u8) -> u8
    ensures { result ≡ number_sign code }
{
    match code {
        ..96 => b'=',
        96..104 => b',',
        _ => b':',
    }
}

// The tag's number and `,`; or the name and `:`; or the letter and `=`, `,` or `:`.
fn first(code: u8, letter: u8, tag: u8) -> Short
    ensures { short_text result ≡ first_text code letter tag }
{
    match code {
        ..72 => decimal(tag, b','),
        72..80 => name(code, letter, b':'),
        _ => Short::Two(letter, number_sign(code)),
    }
}

// What stands between the first and the last: nothing, the text or the number.
fn add_middle<S: Sink>(sink: &mut S, n: usize, t: &[u8]) -> usize
    requires { (S.fits sink.old) × (64 ≤ get_or t.now 0 0) × Held t.now }
    ensures { S.adds n (middle_text t.now) sink.old sink.new result }
{
    match t[0] {
        ..72 => n,
        72..80 => {
            let end = 4 + usize::from(t[3]);
            add_text(sink, n, &t[4..end])
        }
        _ => add_number(sink, n, number_at(t, 2)),
    }
}

// The name and `)`, `:)` or `)`.
fn last(code: u8, letter: u8) -> Short
    ensures { short_text result ≡ last_text code letter }
{
    match code {
        ..72 => name(code, letter, b')'),
        72..80 => Short::Two(b':', b')'),
        _ => Short::One(b')'),
    }
}

// What stands behind the `(` of a call that stores, sets or divides.
fn add_call<S: Sink>(sink: &mut S, n: usize, t: &[u8]) -> usize
    requires { (S.fits sink.old) × (64 ≤ get_or t.now 0 0) × Held t.now }
    ensures { S.adds n (call_text t.now) sink.old sink.new result }
{
    let code = t[0];
    let letter = t[1];
    let a = sink.add(n, first(code, letter, t[3]));
    let b = add_middle(sink, a, t);
    sink.add(b, last(code, letter))
}

fn call_byte(code: u8) -> u8
    ensures { result ≡ call_byte code }
{
    match code {
        ..56 => b'&',
        56..64 => b'#',
        64..88 => b'&',
        _ => b'#',
    }
}

// A literal, `{`, `&(` or `#(`.
fn opening(code: u8, b: u8) -> Short
    ensures { short_text result ≡ open_text code b }
{
    match code {
        40 => literal(b),
        41 => Short::One(b'{'),
        _ => Short::Two(call_byte(code), b'('),
    }
}

// What follows in an action of two bytes: nothing, `n}`, or the name and `)`.
fn ending(code: u8, b: u8) -> Short
    ensures { short_text result ≡ end_text code b }
{
    match code {
        40 => Short::Nothing,
        41 => decimal(b, b'}'),
        _ => name(code, b, b')'),
    }
}

// A literal, `{n}` or a call.
fn add_action<S: Sink>(sink: &mut S, n: usize, t: &[u8]) -> usize
    requires { (S.fits sink.old) × Held t.now }
    ensures { S.adds n (action_text t.now) sink.old sink.new result }
{
    let code = t[0];
    let b = t[1];
    let m = sink.add(n, opening(code, b));
    if code < 64 {
        return sink.add(m, ending(code, b));
    }
    add_call(sink, m, t)
}

// The actions of a replacement, the commands, or the calls before a pattern.
fn add_actions<S: Sink>(sink: &mut S, start: usize, items: &[u8]) -> usize
    requires { (S.fits sink.old) × Whole items.now }
    ensures { S.adds start (actions_text 0 items.now) sink.old sink.new result }
{
    let mut n = start;
    let mut rest = items;
    while !rest.is_empty() {
        n = add_action(sink, n, rest);
        rest = &rest[action_size(rest)..];
    }
    n
}

// Puts the actions into the file.
pub fn put_actions(file: &mut [u8], start: usize, items: &[u8]) -> usize
    requires { (length file.old ≤ 32768) × Whole items.now }
    ensures { Puts start (actions_text 0 items.now) file.old file.new result }
{
    let mut sink = InFile { file };
    add_actions(&mut sink, start, items)
}

// Counts the bytes of the actions, without a file.
pub fn count_actions(start: usize, items: &[u8]) -> usize
    requires { Whole items.now }
    ensures { Counts start (actions_text 0 items.now) result }
{
    add_actions(&mut Counter, start, items)
}
