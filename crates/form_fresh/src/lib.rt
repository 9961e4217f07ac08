// The fresh state, into a state's memory.
#![tactic(auto)]

ghost use Rattle.std.specs.Prelude.{◌≡◌, length};
ghost use Rattle.lines.specs.State.{fresh};
ghost use Rattle.form_state.specs.Form.{state_bytes, state_form};
ghost use Rattle.form_state.specs.Access.{replaced};
ghost use Rattle.form_fresh.specs.Ones.{ones};

use form_bytes::put_number;

// Values and increments 1.
fn put_ones(state: &mut [u8])
    requires { length state.old ≡ state_bytes }
    ensures { state.new ≡ replaced state.old 28 (ones 52) }
{
    for i in 0..52 {
        put_number(state, 28 + 4 * i, 1);
    }
}

// "Fresh: pointers 1, entries empty, counters and increments 1, flags 0."
pub fn put_fresh(state: &mut [u8])
    requires { length state.old ≡ state_bytes }
    ensures { state.new ≡ state_form fresh }
{
    state.fill(0);
    state[2..28].fill(1);
    put_ones(state);
}
