// Marks hold for one state: they are kept as long as the pattern's calls stand for the same texts.
ghost use Rattle.std.specs.Prelude.{◌≤◌, ◌≡◌, length};
ghost use Rattle.form_state.specs.Access.{IsState};
ghost use Rattle.pass_lack.specs.Twos.{LetterIn, Pairs};
ghost use Rattle.pass_one.specs.Seen.{WhenTrue, WhenFalse, NoCall, SameIn, Alike, Renewing, Renewed};

use form_state::{entry, value};
use pass_marks::clear;

// Part 2: a call `&(i)` or `#(i)`.
fn is_call(code: u8) -> bool
    ensures { WhenFalse result (NoCall code 0) }
{
    matches!(code, 16..=23)
}

// Whether a pattern reads a stack or a counter.
pub(crate) fn has_calls(items: &[u8]) -> bool
    requires { Pairs LetterIn items.now × (length items.now ≤ 1014) }
    ensures { WhenFalse result (Pairs NoCall items.now) }
{
    let mut rest = items;
    while let [code, _, after @ ..] = rest {
        if is_call(*code) {
            return true;
        }
        rest = after;
    }
    false
}

// Whether an item that may be a call stands for the same in two states.
fn same_item(code: u8, i: u8, seen: &[u8], state: &[u8]) -> bool
    requires { LetterIn code i × IsState seen.now × IsState state.now }
    ensures { WhenTrue result (SameIn seen.now state.now code i) }
{
    match code {
        16..=19 => entry(seen, i) == entry(state, i),
        20..=23 => value(seen, i) == value(state, i),
        _ => true,
    }
}

// Whether every call of a pattern stands for the same in two states.
fn same_calls(items: &[u8], seen: &[u8], state: &[u8]) -> bool
    requires { Pairs LetterIn items.now × (length items.now ≤ 1014) × IsState seen.now × IsState state.now }
    ensures { WhenTrue result (Alike items.now seen.now state.now) }
{
    let mut rest = items;
    while let [code, i, after @ ..] = rest {
        if !same_item(*code, *i, seen, state) {
            return false;
        }
        rest = after;
    }
    true
}

// The state under which marks are made.
fn copy_state(state: &[u8], seen: &mut [u8])
    requires { length state.now ≡ length seen.old }
    ensures { seen.new ≡ state.now }
{
    for i in 0..state.len() {
        seen[i] = state[i];
    }
}

// After an occurrence: marks that were made under other texts are cleared. Where the pattern has no call nothing is seen.
pub(crate) fn renew(items: &[u8], state: &[u8], seen: &mut [u8], marks: &mut [u8])
    requires { Renewing items.now state.now seen.old marks.old }
    ensures { Renewed items.now state.now seen.old seen.new marks.old marks.new }
{
    if seen.is_empty() || same_calls(items, seen, state) {
        return;
    }
    clear(marks, 66 * items.len());
    copy_state(state, seen);
}
