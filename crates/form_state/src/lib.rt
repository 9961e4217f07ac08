// The state as bytes: what is read of the stacks and counters in one lent memory.
#![tactic(auto)]

pub mod layout;

ghost use Rattle.std.specs.Prelude.{◌+◌, ◌-◌, ◌≤◌, ◌≡◌};
ghost use Rattle.macros.specs.Bounds.{most_entry_bytes};
ghost use Rattle.macros.specs.Formed.{Letter};
ghost use Rattle.lines.specs.State.{stack_of, counter_of, current_entry};
ghost use Rattle.form_state.specs.Form.{state_bytes};
ghost use Rattle.form_state.specs.Access.{IsState, OfState, text_length, entry_place};

use crate::layout::{ENTRIES_AT, ENTRY_BYTES, INCREMENTS_AT, POINTERS_AT, STACK_BYTES, VALUES_AT};
use form_bytes::number_at;

// The number of the letter i: of `a` it is 0.
pub fn letter_number(i: u8) -> usize
    requires { Letter i }
    ensures { (result ≡ i - 97) × (result ≤ 25) }
{
    (i - 97) as usize
}

// The pointer of the stack i.
pub fn pointer(state: &[u8], i: u8) -> u8
    requires { IsState state.now × Letter i }
    ensures { OfState state.now (λ st. result ≡ (stack_of st i).pointer) }
{
    state[POINTERS_AT + letter_number(i)]
}

// The value of the counter i.
pub fn value(state: &[u8], i: u8) -> u32
    requires { IsState state.now × Letter i }
    ensures { OfState state.now (λ st. result ≡ (counter_of st i).value) }
{
    number_at(state, VALUES_AT + 4 * letter_number(i))
}

// The increment of the counter i.
pub fn increment(state: &[u8], i: u8) -> u32
    requires { IsState state.now × Letter i }
    ensures { OfState state.now (λ st. result ≡ (counter_of st i).increment) }
{
    number_at(state, INCREMENTS_AT + 4 * letter_number(i))
}

// Where the current entry of the letter i starts.
pub fn entry_at(state: &[u8], i: u8) -> usize
    requires { IsState state.now × Letter i }
    ensures { (result + most_entry_bytes ≤ state_bytes) × OfState state.now (λ st. result ≡ entry_place st i) }
{
    let p = pointer(state, i);
    ENTRIES_AT + (STACK_BYTES * letter_number(i) + ENTRY_BYTES * ((p - 1) as usize))
}

// How many bytes stand before the first 0: an entry's text holds none.
fn text_length(entry: &[u8]) -> usize
    ensures { result ≡ text_length entry.now }
{
    entry.iter().position(|b| *b == 0).unwrap_or(entry.len())
}

// Part 4: the current entry, "handed out as a part .. of the stack memory".
pub fn entry(state: &[u8], i: u8) -> &[u8]
    requires { IsState state.now × Letter i }
    ensures { OfState state.now (λ st. result.now ≡ current_entry st i) }
{
    let at = entry_at(state, i);
    let n = text_length(&state[at..at + ENTRY_BYTES]);
    &state[at..at + n]
}
