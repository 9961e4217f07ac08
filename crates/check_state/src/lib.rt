// Whether bytes are a state (refusal 2).
#![tactic(auto)]

ghost use Rattle.std.specs.Prelude.{◌≡◌, length};
ghost use Rattle.macros.specs.Bounds.{most_entries, most_entry_bytes};
ghost use Rattle.form_state.specs.Form.{entry_count, stack_bytes, stacks_bytes};
ghost use Rattle.form_state.specs.Check.{pointers_check, number_check, entry_check, blocks_check, state_checks};

use form_bytes::{all_zero_by_four, number_at};
use form_state::layout::{
    ENTRIES_AT, ENTRY_BYTES, POINTERS_AT, STACK_BYTES, STATE_BYTES, VALUES_AT,
};

// Each pointer is 1 to 20.
fn pointers_fit(pointers: &[u8]) -> bool
    ensures { result ≡ pointers_check pointers.now }
{
    let mut ok = true;
    for p in pointers {
        ok = ok & (1 <= *p) & (*p <= 20);
    }
    ok
}

// The values and increments of the counters are 1 to 999,999,999.
fn numbers_fit(numbers: &[u8]) -> bool
    requires { length numbers.now ≡ 208 }
    ensures { result ≡ blocks_check number_check 4 52 numbers.now }
{
    let mut ok = true;
    for i in 0..52 {
        let n = number_at(numbers, 4 * i);
        ok = ok & (1 <= n) & (n <= 999999999);
    }
    ok
}

// No byte other than 0 follows a byte 0. Without an early exit the loop runs on many bytes at once.
fn entry_fits(entry: &[u8]) -> bool
    ensures { result ≡ entry_check entry.now }
{
    let mut ok = true;
    for i in 1..entry.len() {
        ok = ok & ((entry[i - 1] != 0) | (entry[i] == 0));
    }
    ok
}

// The 20 entries of a stack, one by one.
fn each_fits(stack: &[u8]) -> bool
    requires { length stack.now ≡ stack_bytes }
    ensures { result ≡ blocks_check entry_check most_entry_bytes most_entries stack.now }
{
    let mut ok = true;
    for i in 0..20 {
        let at = ENTRY_BYTES * i;
        ok = ok & entry_fits(&stack[at..at + ENTRY_BYTES]);
    }
    ok
}

// Most stacks hold nothing but empty entries, which are zeros: these are seen many at once.
fn stack_fits(stack: &[u8]) -> bool
    requires { length stack.now ≡ stack_bytes }
    ensures { result ≡ blocks_check entry_check most_entry_bytes most_entries stack.now }
{
    if all_zero_by_four(stack) {
        return true;
    }
    each_fits(stack)
}

// The 26 stacks.
fn entries_fit(entries: &[u8]) -> bool
    requires { length entries.now ≡ stacks_bytes }
    ensures { result ≡ blocks_check entry_check most_entry_bytes entry_count entries.now }
{
    let mut ok = true;
    for i in 0..26 {
        let at = STACK_BYTES * i;
        ok = ok & stack_fits(&entries[at..at + STACK_BYTES]);
    }
    ok
}

// Refusal 2: whether bytes are the form of a state in range.
pub fn is_state(state: &[u8]) -> bool
    ensures { result ≡ state_checks state.now }
{
    if state.len() != STATE_BYTES {
        return false;
    }
    let trace = state[0] <= 1;
    let nflag = state[1] <= 1;
    let pointers = pointers_fit(&state[POINTERS_AT..VALUES_AT]);
    let numbers = numbers_fit(&state[VALUES_AT..ENTRIES_AT]);
    let entries = entries_fit(&state[ENTRIES_AT..]);
    trace & nflag & pointers & numbers & entries
}
