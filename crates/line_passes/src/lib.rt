// The passes of a line, from its start to its end (01, part 6).
#![tactic(auto)]

mod passes;

ghost use Rattle.line_passes.specs.Contract.{Started, Runs, RunsTo};
ghost use Rattle.line_passes.specs.Passing.{FromStart, run_of};

use kinds::kind_table;
use line_memory::{lay_out, lay_out_if};
use line_stand::{Ended, PassesError, Stand};
use pass_lack::note;
use passes::all_passes;

// The passes of a line that stands in the text, in memories of their own.
fn from_start(
    table: &[u8],
    count: usize,
    state: &mut [u8],
    text: &mut [u8],
    trace: &mut [u8],
    traced: bool,
    size: usize,
    budget: usize,
) -> Result<Ended, PassesError>
    requires { FromStart table.now count (record { state = state.now; text = text.old; trace = trace.old }) size traced }
    ensures { RunsTo (run_of table.now count (record { state = state.entry.now; text = text.old; trace = trace.old }) size budget traced) (record { state = state.entry.now; text = text.old; trace = trace.old }) (record { state = state.exit.now; text = text.new; trace = trace.new }) result }
{
    let kinds = kind_table();
    let mut new = [0u8; 1054];
    let mut present = [0u8; 256];
    note(&text[..size], &mut present);
    let mut flags = [0u8; 96];
    let start = Stand {
        size,
        occurred: false,
        due: count,
        begun: 0,
        written: 0,
    };
    all_passes(
        table,
        count,
        &kinds,
        state,
        text,
        &mut new,
        &mut present,
        &mut flags,
        trace,
        traced,
        budget,
        start,
    )
}

// Runs the passes of a line on the lent state, which stands in `before` too: `state` and `text` are the state and the line at its end, `trace`
// its trace, if it is traced; of a refused line all three are put back as they came.
pub fn run_line(
    table: &[u8],
    count: usize,
    before: &[u8],
    line: &[u8],
    budget: usize,
    state: &mut [u8],
    text: &mut [u8],
    trace: &mut [u8],
    traced: bool,
) -> Result<Ended, PassesError>
    requires { Started (record { table = table.now; count = count; state = before.now; sent = record { line = line.now; budget = budget }; traced = traced }) (record { state = state.now; text = text.old; trace = trace.old }) }
    ensures { Runs (record { table = table.entry.now; count = count; state = before.now; sent = record { line = line.entry.now; budget = budget }; traced = traced }) (record { state = state.entry.now; text = text.old; trace = trace.old }) (record { state = state.exit.now; text = text.new; trace = trace.new }) result }
{
    lay_out(text, line);
    let ended = from_start(table, count, state, text, trace, traced, line.len(), budget);
    let refused = ended.is_err();
    lay_out_if(state, before, refused);
    lay_out_if(text, line, refused);
    lay_out_if(trace, b"", traced && refused);
    ended
}
