// The end of a line (01, part 6): its control line is carried out, and it is answered.
#![tactic(auto)]

mod answers;

ghost use Rattle.std.specs.Prelude.{◌≡◌, length};
ghost use Rattle.form_state.specs.Form.{state_bytes};
ghost use Rattle.form_state.specs.Access.{OfState};
ghost use Rattle.lines.specs.Trace.{is_on};
ghost use Rattle.line_end.specs.Contract.{Obeying, Obeyed, Replying, Replied};

use answers::{fed_of, size_of};
use line_answer::{Fed, LineError};
use line_control::{ControlError, control};
use line_memory::lay_out_if;
use line_stand::{Ended, PassesError};

// Whether a state asks for a trace: the flag that `$TRACE` sets.
pub fn is_traced(state: &[u8]) -> bool
    requires { length state.now ≡ state_bytes }
    ensures { OfState state.now (λ st. result ≡ is_on st.trace) }
{
    0 < state[0]
}

// The flag that `$NFLAG` sets.
fn nflag(state: &[u8]) -> u8
    requires { length state.now ≡ state_bytes }
    ensures { OfState state.now (λ st. result ≡ st.nflag) }
{
    state[1]
}

// Carries out a control line, if the line ended as one: `before` is the state that came, which one that is wrong gets back.
pub fn obey(
    table: &mut [u8],
    count: usize,
    state: &mut [u8],
    before: &[u8],
    text: &[u8],
    ended: Result<Ended, PassesError>,
) -> Result<(), ControlError>
    requires { Obeying table.old count state.old before.now text.now ended }
    ensures { Obeyed table.old table.new count state.old state.new before.now text.now ended result }
{
    let Ok(Ended::Control(n, _)) = ended else {
        return Ok(());
    };
    let order = control(table, count, state, &text[..n]);
    lay_out_if(state, before, order.is_err());
    order
}

// The answer to a line whose end is known, with its output and its trace: NFLAG is that of the state after it, TRACE that of the state
// before.
pub fn reply(
    before: &[u8],
    after: &[u8],
    text: &[u8],
    lines: &[u8],
    output: &mut [u8],
    trace: &mut [u8],
    ended: Result<Ended, PassesError>,
    order: Result<(), ControlError>,
) -> Result<Fed, LineError>
    requires { Replying before.now after.now text.now lines.now output.old trace.old ended }
    ensures { Replied before.now after.now text.now lines.now output.old output.new trace.old trace.new ended order result }
{
    let fed = fed_of(ended, order, nflag(after));
    let taken = fed.is_ok();
    lay_out_if(output, &text[..size_of(fed)], taken);
    lay_out_if(trace, lines, taken && is_traced(before));
    fed
}
