// A line that 4, 21 and 22 do not refuse: its passes, its control line, its answer (01, part 6).
ghost use Rattle.std.specs.Prelude.{◌≡◌, true};
ghost use Rattle.lines.specs.Trace.{is_on};
ghost use Rattle.form_state.specs.Access.{OfState};
ghost use Rattle.line_feed.specs.Contract.{Lent};
ghost use Rattle.line_feed.specs.Taking.{Fits, TraceRoom, Takes};

use crate::slots::count_macros;
use line_answer::{Fed, LineError};
use line_end::{is_traced, obey, reply};
use line_memory::lay_out;
use line_passes::run_line;

// The lent state is worked on, and `before` is what is put back of a refused line; its trace, if it is traced, stands in `lines` until
// the line is taken.
fn take_with(
    table: &mut [u8],
    state: &mut [u8],
    line: &[u8],
    budget: usize,
    output: &mut [u8],
    trace: &mut [u8],
    lines: &mut [u8],
    traced: bool,
) -> Result<Fed, LineError>
    requires { Lent (record { table = table.now; state = state.old; output = output.old; trace = trace.old }) × Fits line.now × TraceRoom state.old traced lines.old }
    ensures { Takes (record { sent = record { line = line.entry.now; budget = budget }; lent = record { table = table.entry.now; state = state.old; output = output.old; trace = trace.old }; left = record { table = table.exit.now; state = state.new; output = output.new; trace = trace.new } }) result }
{
    let mut before = [0u8; 52236];
    lay_out(&mut before, &state[..52236]); // of a known size, so that the compiler does not clear `before` first
    let mut text = [0u8; 1054];
    let count = count_macros(table);
    let ended = run_line(
        table, count, &before, line, budget, state, &mut text, lines, traced,
    );
    let order = obey(table, count, state, &before, &text, ended);
    reply(&before, state, &text, lines, output, trace, ended, order)
}

// One that is traced, in a memory of its own: a line that is not traced has none.
fn take_traced(
    table: &mut [u8],
    state: &mut [u8],
    line: &[u8],
    budget: usize,
    output: &mut [u8],
    trace: &mut [u8],
) -> Result<Fed, LineError>
    requires { Lent (record { table = table.now; state = state.old; output = output.old; trace = trace.old }) × Fits line.now × OfState state.old (λ st. true ≡ is_on st.trace) }
    ensures { Takes (record { sent = record { line = line.entry.now; budget = budget }; lent = record { table = table.entry.now; state = state.old; output = output.old; trace = trace.old }; left = record { table = table.exit.now; state = state.new; output = output.new; trace = trace.new } }) result }
{
    let mut lines = [0u8; 65536];
    take_with(table, state, line, budget, output, trace, &mut lines, true)
}

// Traced or not.
pub(crate) fn take_line(
    table: &mut [u8],
    state: &mut [u8],
    line: &[u8],
    budget: usize,
    output: &mut [u8],
    trace: &mut [u8],
) -> Result<Fed, LineError>
    requires { Lent (record { table = table.now; state = state.old; output = output.old; trace = trace.old }) × Fits line.now }
    ensures { Takes (record { sent = record { line = line.entry.now; budget = budget }; lent = record { table = table.entry.now; state = state.old; output = output.old; trace = trace.old }; left = record { table = table.exit.now; state = state.new; output = output.new; trace = trace.new } }) result }
{
    if is_traced(state) {
        return take_traced(table, state, line, budget, output, trace);
    }
    let mut none = [0u8; 0];
    take_with(table, state, line, budget, output, trace, &mut none, false)
}
