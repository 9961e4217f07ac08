// Storing into a state's memory: pointers, counters and entries.
ghost use Rattle.std.specs.Prelude.{◌≤◌, length};
ghost use Rattle.macros.specs.Bounds.{most_entries, most_entry_bytes, most_counter};
ghost use Rattle.macros.specs.Formed.{Between, Bytes, Letter};
ghost use Rattle.lines.specs.Replacing.{with_pointer, with_value, with_increment, with_entry};
ghost use Rattle.form_state.specs.Access.{Holds, IsState, OfWork};

use form_bytes::put_number;
use form_state::{entry_at, letter_number};
use pass_steps::copy;

// The pointer of the stack i.
pub(crate) fn set_pointer(state: &mut [u8], i: u8, n: u8)
    requires { IsState state.old × Letter i × Between 1 most_entries n }
    ensures { OfWork state.old (λ w. Holds state.new (with_pointer i n w).state) }
{
    let at = 2 + letter_number(i);
    state[at] = n;
}

// The value of the counter i.
pub(crate) fn set_value(state: &mut [u8], i: u8, n: u32)
    requires { IsState state.old × Letter i × Between 1 most_counter n }
    ensures { OfWork state.old (λ w. Holds state.new (with_value i n w).state) }
{
    put_number(state, 28 + 4 * letter_number(i), n);
}

// The increment of the counter i.
pub(crate) fn set_increment(state: &mut [u8], i: u8, n: u32)
    requires { IsState state.old × Letter i × Between 1 most_counter n }
    ensures { OfWork state.old (λ w. Holds state.new (with_increment i n w).state) }
{
    put_number(state, 132 + 4 * letter_number(i), n);
}

// The text of the current entry of the stack i, and zeros behind it.
pub(crate) fn set_entry(state: &mut [u8], i: u8, text: &[u8])
    requires { IsState state.old × Letter i × Bytes text.now × (length text.now ≤ most_entry_bytes) }
    ensures { OfWork state.old (λ w. Holds state.new (with_entry i text.now w).state) }
{
    let at = entry_at(state, i);
    copy(state, at, text);
    state[at + text.len()..at + 100].fill(0);
}
