// Where a line stands (01, part 6): what is due there, and what follows a pass.
#![tactic(auto)]

mod slots;

ghost use Rattle.std.specs.Prelude.{◌≡◌, ◌≤◌, length, true, Ok};
ghost use Rattle.lines.specs.Line.{is_control};
ghost use Rattle.pass_one.specs.Contract.{size_of};
ghost use Rattle.line_stand.specs.Standing.{Dues, Followed, Follows};

use line_memory::lay_out;
use line_trace::trace_pass;
use pass_lack::note;
use pass_moment::Passed;
use refusals::{WorkError, WorkFault};
use slots::{close, open_below};

// Why the table at work refuses a line: 31, a pass's fault, or 36.
#[derive(Clone, Copy, Debug, PartialEq, Eq)]
pub enum Why {
    BudgetUsedUp,
    AtWork(WorkFault),
    TraceTooLong,
}

// A line that is refused at work, with the passes begun.
#[derive(Clone, Copy, Debug, PartialEq, Eq)]
pub struct PassesError {
    pub why: Why,
    pub begun: usize,
}

// How a line ends that is not refused: done, with its length and whether it had an occurrence; or a control line, with its length. Last the passes begun.
#[derive(Clone, Copy, Debug, PartialEq, Eq)]
pub enum Ended {
    Done(usize, bool, usize),
    Control(usize, usize),
}

// Where a line stands, before a pass or at its end: its length, whether it had an occurrence, how many of the oldest macros may be due, the passes begun, and the bytes of the trace.
#[derive(Clone, Copy, Debug, PartialEq, Eq)]
pub struct Stand {
    pub size: usize,
    pub occurred: bool,
    pub due: usize,
    pub begun: usize,
    pub written: usize,
}

// What is due where a line stands: its end, or the pass of the macro with this number.
#[derive(Clone, Copy, Debug, PartialEq, Eq)]
pub enum Due {
    Over(Ended),
    Pass(usize),
}

// "a line beginning with `$` is a control line".
#[tactic(auto, unfolding(lines::specs::Line::is_control))]
fn is_control(line: &[u8]) -> bool
    ensures { result ≡ is_control line.now }
{
    line.starts_with(b"$")
}

// After a pass with an occurrence: its lines go to the trace, the new line is the line, with its bytes noted anew, and it goes on again with the newest. Lines that do not fit refuse it.
fn again(
    table: &[u8],
    count: usize,
    text: &mut [u8],
    new: &[u8],
    present: &mut [u8],
    flags: &mut [u8],
    trace: &mut [u8],
    traced: bool,
    size: usize,
    on: Stand,
) -> Result<Stand, PassesError>
    requires { Followed table.now (record { text = text.now; present = present.old; flags = flags.old; trace = trace.old }) new.now traced size on }
    ensures { Follows table.now count (record { text = text.entry.now; present = present.old; flags = flags.old; trace = trace.old }) (record { text = text.exit.now; present = present.new; flags = flags.new; trace = trace.new }) new.now traced (Ok (record { occurred = true; size = size })) on result }
{
    let k = on.due;
    let n = on.size;
    let lines = trace_pass(trace, traced, on.written, &text[..n], k + 1, &new[..size]);
    let Some(written) = lines else {
        return Err(PassesError {
            why: Why::TraceTooLong,
            begun: on.begun,
        });
    };
    lay_out(text, &new[..size]);
    note(&new[..size], present);
    close(flags, table[1024 * k], k);
    Ok(Stand {
        size,
        occurred: true,
        due: count,
        begun: on.begun,
        written,
    })
}

// What follows a pass: `on` is where the line stands if it had no occurrence. A refused one refuses the line.
pub fn after_pass(
    table: &[u8],
    count: usize,
    text: &mut [u8],
    new: &[u8],
    present: &mut [u8],
    flags: &mut [u8],
    trace: &mut [u8],
    traced: bool,
    passed: Result<Passed, WorkError>,
    on: Stand,
) -> Result<Stand, PassesError>
    requires { Followed table.now (record { text = text.now; present = present.old; flags = flags.old; trace = trace.old }) new.now traced (size_of passed) on }
    ensures { Follows table.now count (record { text = text.entry.now; present = present.old; flags = flags.old; trace = trace.old }) (record { text = text.exit.now; present = present.new; flags = flags.new; trace = trace.new }) new.now traced passed on result }
{
    match passed {
        Err(e) => Err(PassesError {
            why: Why::AtWork(e.fault),
            begun: on.begun,
        }),
        Ok(Passed { occurred, size }) => {
            if occurred {
                return again(
                    table, count, text, new, present, flags, trace, traced, size, on,
                );
            }
            Ok(on)
        }
    }
}

// What is due: before each pass and at the end whether it is a control line; a pass, if a macro is due and the budget is not used up.
pub fn next_due(line: &[u8], flags: &[u8], budget: usize, stand: Stand) -> Result<Due, PassesError>
    requires { (stand.due ≤ length flags.now) × (stand.begun ≤ budget) }
    ensures { Dues line.now flags.now budget stand result }
{
    let n = stand.size;
    let begun = stand.begun;
    if is_control(line) {
        return Ok(Due::Over(Ended::Control(n, begun)));
    }
    let Some(newest) = open_below(flags, stand.due) else {
        return Ok(Due::Over(Ended::Done(n, stand.occurred, begun)));
    };
    if budget - begun < 1 {
        return Err(PassesError {
            why: Why::BudgetUsedUp,
            begun,
        });
    }
    Ok(Due::Pass(newest))
}
