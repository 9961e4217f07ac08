// What C calls: the functions of m7 under their own names, each with the clauses that m7 states. include/m7.h is their manual.
#![tactic(auto)]

ghost use Rattle.std.specs.Prelude.{◌≡◌};
ghost use Rattle.plans.specs.Numbers.{plan_of};
ghost use Rattle.m7.specs.Contract.{Gives, Writes, freshens, reads};
ghost use Rattle.m7.specs.Feeding.{Feeds};
ghost use Rattle.m7.specs.Recovering.{Returned, recovers};
ghost use Rattle.m7.specs.Widening.{Narrows, Widens};
ghost use Rattle.m7.specs.Words.{looks_up};

use line_answer::Answer;
use plans::Plan;

// Reads a macro file as a new table.
#[unsafe(no_mangle)]
pub extern "C" fn m7_read(file: &[u8], table: &mut [u8]) -> Answer
    ensures { Gives (reads file.now table.old) result table.new }
{
    m7::read::m7_read(file, table)
}

// Reads a macro file past its faults.
#[unsafe(no_mangle)]
pub extern "C" fn m7_recover(file: &[u8], table: &mut [u8], faults: &mut [u8]) -> Answer
    ensures { Returned (recovers file.now (record { table = table.old; faults = faults.old })) result (record { table = table.new; faults = faults.new }) }
{
    m7::recover::m7_recover(file, table, faults)
}

// What a macro file will take.
#[unsafe(no_mangle)]
pub extern "C" fn m7_measure(file: &[u8]) -> Plan
    ensures { result ≡ plan_of file.now }
{
    m7::measure::m7_measure(file)
}

// Writes out a table.
#[unsafe(no_mangle)]
pub extern "C" fn m7_write(table: &[u8], file: &mut [u8]) -> Answer
    ensures { Writes table.now file.old result file.new }
{
    m7::write::m7_write(table, file)
}

// Stores the fresh state.
#[unsafe(no_mangle)]
pub extern "C" fn m7_fresh(state: &mut [u8]) -> Answer
    ensures { Gives (freshens state.old) result state.new }
{
    m7::fresh::m7_fresh(state)
}

// Stores a state of the old size in the new one.
#[unsafe(no_mangle)]
pub extern "C" fn m7_widen(old: &[u8], state: &mut [u8]) -> Answer
    ensures { Widens old.now state.old result state.new }
{
    m7::widen::m7_widen(old, state)
}

// Stores a state in the old size.
#[unsafe(no_mangle)]
pub extern "C" fn m7_narrow(state: &[u8], old: &mut [u8]) -> Answer
    ensures { Narrows state.now old.old result old.new }
{
    m7::narrow::m7_narrow(state, old)
}

// Feeds a line.
#[unsafe(no_mangle)]
pub extern "C" fn m7_feed(
    table: &mut [u8],
    state: &mut [u8],
    line: &[u8],
    budget: u32,
    output: &mut [u8],
    trace: &mut [u8],
) -> Answer
    ensures { Feeds (record { feeding = record { sent = record { line = line.now; budget = budget }; lent = record { table = table.old; state = state.old; output = output.old; trace = trace.old }; left = record { table = table.new; state = state.new; output = output.new; trace = trace.new } }; answer = result }) }
{
    m7::feed::m7_feed(table, state, line, budget, output, trace)
}

// Looks up the words of a line that a word-pattern covers.
#[unsafe(no_mangle)]
pub extern "C" fn m7_words(line: &[u8], pattern: &[u8]) -> Answer
    ensures { result ≡ looks_up line.now pattern.now }
{
    m7::looking::m7_words(line, pattern)
}
