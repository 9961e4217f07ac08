// 02, N6: a state of the old size made one of the new size, and back.
#![tactic(auto)]

ghost use Rattle.std.specs.Prelude.{◌+◌, ◌≤◌, ◌≡◌, length};
ghost use Rattle.macros.specs.Bounds.{most_entry_bytes, old_entry_bytes};
ghost use Rattle.form_state.specs.Form.{state_bytes, entries_from};
ghost use Rattle.form_state.specs.Access.{replaced};
ghost use Rattle.form_old.specs.Old.{old_state_bytes, widened_entry, entries_widened, widened_bytes};
ghost use Rattle.form_old.specs.Old.{entries_narrowed, narrowed_bytes, short_entries};

use form_items::clear;
use form_state::layout::{ENTRIES_AT, ENTRY_BYTES};

// The size of an old state's memory.
pub const OLD_STATE_BYTES: usize = 26236;

// The bytes of an entry of the old size.
const OLD_ENTRY_BYTES: usize = 50;

// The entries of all stacks.
const ENTRIES: usize = 520;

// The bytes of a text from a place on.
fn copy(out: &mut [u8], at: usize, text: &[u8])
    requires { at + length text.now ≤ length out.old }
    ensures { out.new ≡ replaced out.old at text.now }
{
    for i in 0..text.len() {
        out[at + i] = text[i];
    }
}

// An entry of the old size, and zeros behind it up to the new size.
fn put_wide(state: &mut [u8], at: usize, entry: &[u8])
    requires { (length entry.now ≡ old_entry_bytes) × (at + most_entry_bytes ≤ length state.old) }
    ensures { state.new ≡ replaced state.old at (widened_entry entry.now) }
{
    state[at..at + OLD_ENTRY_BYTES].copy_from_slice(entry);
    clear(state, at + OLD_ENTRY_BYTES, ENTRY_BYTES - OLD_ENTRY_BYTES);
}

// All entries, each with zeros behind it.
fn widen_entries(old: &[u8], state: &mut [u8])
    requires { (length old.now ≡ old_state_bytes) × (length state.old ≡ state_bytes) }
    ensures { state.new ≡ replaced state.old entries_from (entries_widened old.now) }
{
    for i in 0..ENTRIES {
        let from = ENTRIES_AT + OLD_ENTRY_BYTES * i;
        put_wide(
            state,
            ENTRIES_AT + ENTRY_BYTES * i,
            &old[from..from + OLD_ENTRY_BYTES],
        );
    }
}

// "One operation turns an old state into a new one": the same flags, pointers, values and increments, and its entries.
pub fn widen(old: &[u8], state: &mut [u8])
    requires { (length old.now ≡ old_state_bytes) × (length state.old ≡ state_bytes) }
    ensures { state.new ≡ widened_bytes old.now }
{
    copy(state, 0, &old[..ENTRIES_AT]);
    widen_entries(old, state);
}

// All entries, the first 50 bytes of each.
fn narrow_entries(state: &[u8], old: &mut [u8])
    requires { (length state.now ≡ state_bytes) × (length old.old ≡ old_state_bytes) }
    ensures { old.new ≡ replaced old.old entries_from (entries_narrowed state.now) }
{
    for i in 0..ENTRIES {
        let from = ENTRIES_AT + ENTRY_BYTES * i;
        let to = ENTRIES_AT + OLD_ENTRY_BYTES * i;
        old[to..to + OLD_ENTRY_BYTES].copy_from_slice(&state[from..from + OLD_ENTRY_BYTES]);
    }
}

// "Another goes back": the same flags, pointers, values and increments, and its entries.
pub fn narrow(state: &[u8], old: &mut [u8])
    requires { (length state.now ≡ state_bytes) × (length old.old ≡ old_state_bytes) }
    ensures { old.new ≡ narrowed_bytes state.now }
{
    copy(old, 0, &state[..ENTRIES_AT]);
    narrow_entries(state, old);
}

// 42: whether no entry has more than 50 bytes. One byte of each entry tells: an entry's text holds no byte 0.
pub fn is_short(state: &[u8]) -> bool
    requires { length state.now ≡ state_bytes }
    ensures { result ≡ short_entries state.now }
{
    let mut ok = true;
    for i in 0..ENTRIES {
        ok = ok & (state[ENTRIES_AT + OLD_ENTRY_BYTES + ENTRY_BYTES * i] == 0);
    }
    ok
}
