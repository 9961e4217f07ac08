// Feeding a line.
ghost use Rattle.std.specs.Prelude.{◌≡◌};
ghost use Rattle.m7.specs.Feeding.{Feeds, sized_to_feed};
ghost use Rattle.m7.specs.HostRefusal.{first_due, host_refusal};

use crate::answers::refusal;
use crate::{LINE_BYTES, STATE_BYTES, TABLE_BYTES, TRACE_BYTES};
use line_answer::{Answer, answer_of};

// Feeds a line. The kind is 1 for a line that goes out, 2 withheld, 3 control; the length is that of the line that goes out, zeros stand
// behind it. Under TRACE 1 a line that is taken writes its trace, with zeros behind it. A refusal leaves the memories as they were.
pub fn m7_feed(
    table: &mut [u8],
    state: &mut [u8],
    line: &[u8],
    budget: u32,
    output: &mut [u8],
    trace: &mut [u8],
) -> Answer
    ensures { Feeds (record { feeding = record { sent = record { line = line.now; budget = budget }; lent = record { table = table.old; state = state.old; output = output.old; trace = trace.old }; left = record { table = table.new; state = state.new; output = output.new; trace = trace.new } }; answer = result }) }
{
    if let Some(number) = host_refusal(table, state, output, trace) {
        return refusal(number, 0);
    }
    let fed = line_feed::feed(table, state, line, budget, output, trace);
    answer_of(fed)
}

// Whether the memories have the sizes that the docs state.
fn are_sized(table: &[u8], state: &[u8], output: &[u8], trace: &[u8]) -> bool
    ensures { result ≡ sized_to_feed (record { table = table.now; state = state.now; output = output.now; trace = trace.now }) }
{
    if table.len() != TABLE_BYTES {
        return false;
    }
    if state.len() != STATE_BYTES {
        return false;
    }
    if output.len() != LINE_BYTES {
        return false;
    }
    trace.len() == TRACE_BYTES
}

// "The host, first": 3, then 1, then 2.
fn first_due(sized: bool, table: bool, state: bool) -> Option<u32>
    ensures { result ≡ first_due sized table state }
{
    if !sized {
        return Some(3);
    }
    if !table {
        return Some(1);
    }
    if !state {
        return Some(2);
    }
    None
}

// The number with which the memories are refused before a line is fed.
fn host_refusal(table: &[u8], state: &[u8], output: &[u8], trace: &[u8]) -> Option<u32>
    ensures { result ≡ host_refusal (record { table = table.now; state = state.now; output = output.now; trace = trace.now }) }
{
    let sized = are_sized(table, state, output, trace);
    let is_table = check_table::is_table(table);
    let is_state = check_state::is_state(state);
    first_due(sized, is_table, is_state)
}
