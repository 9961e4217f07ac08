// Feeding a line (01, part 6): its tests, its passes and its end.
#![tactic(auto)]

mod slots;
mod taking;

ghost use Rattle.line_feed.specs.Contract.{Lent, Feeds};

use line_answer::{Fed, LineError};
use line_test::first_refusal;
use taking::take_line;

// Feeds a line to a table and a state. A refusal leaves table, state, output and trace as they were.
pub fn feed(
    table: &mut [u8],
    state: &mut [u8],
    line: &[u8],
    budget: u32,
    output: &mut [u8],
    trace: &mut [u8],
) -> Result<Fed, LineError>
    requires { Lent (record { table = table.now; state = state.old; output = output.old; trace = trace.old }) }
    ensures { Feeds (record { sent = record { line = line.entry.now; budget = budget }; lent = record { table = table.entry.now; state = state.old; output = output.old; trace = trace.old }; left = record { table = table.exit.now; state = state.new; output = output.new; trace = trace.new } }) result }
{
    first_refusal(line, budget)?;
    take_line(table, state, line, budget as usize, output, trace)
}
