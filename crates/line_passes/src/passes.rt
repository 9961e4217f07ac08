// The passes of a line (01, part 6).
ghost use Rattle.line_passes.specs.Passing.{Ready, PassDue, Steps, Ends};

use line_begin::run_pass;
use line_stand::{Due, Ended, PassesError, Stand, after_pass, next_due};

// The pass of the macro k, which is due: one pass further.
fn step(
    table: &[u8],
    count: usize,
    kinds: &[u8; 256],
    state: &mut [u8],
    text: &mut [u8],
    new: &mut [u8],
    present: &mut [u8],
    flags: &mut [u8],
    trace: &mut [u8],
    traced: bool,
    budget: usize,
    stand: Stand,
    k: usize,
) -> Result<Stand, PassesError>
    requires { Ready (record { table = table.now; count = count; kinds = kinds.now; budget = budget; traced = traced }) (record { state = state.now; text = text.old; new = new.old; present = present.old; flags = flags.old; trace = trace.old }) stand × PassDue (record { table = table.now; count = count; kinds = kinds.now; budget = budget; traced = traced }) (record { state = state.now; text = text.old; new = new.old; present = present.old; flags = flags.old; trace = trace.old }) stand k }
    ensures { Steps (record { table = table.entry.now; count = count; kinds = kinds.now; budget = budget; traced = traced }) (record { state = state.entry.now; text = text.old; new = new.old; present = present.old; flags = flags.old; trace = trace.old }) (record { state = state.exit.now; text = text.new; new = new.new; present = present.new; flags = flags.new; trace = trace.new }) stand result }
{
    let n = stand.size;
    let a = 1024 * k;
    let passed = run_pass(
        &table[a..a + 1024],
        kinds,
        present,
        &text[..n],
        state,
        new,
        flags,
        k,
    );
    let on = Stand {
        due: k,
        begun: stand.begun + 1,
        ..stand
    };
    after_pass(
        table, count, text, new, present, flags, trace, traced, passed, on,
    )
}

// The passes from where the line stands to its end.
pub(crate) fn all_passes(
    table: &[u8],
    count: usize,
    kinds: &[u8; 256],
    state: &mut [u8],
    text: &mut [u8],
    new: &mut [u8],
    present: &mut [u8],
    flags: &mut [u8],
    trace: &mut [u8],
    traced: bool,
    budget: usize,
    start: Stand,
) -> Result<Ended, PassesError>
    requires { Ready (record { table = table.now; count = count; kinds = kinds.now; budget = budget; traced = traced }) (record { state = state.now; text = text.old; new = new.old; present = present.old; flags = flags.old; trace = trace.old }) start }
    ensures { Ends (record { table = table.entry.now; count = count; kinds = kinds.now; budget = budget; traced = traced }) (record { state = state.entry.now; text = text.old; new = new.old; present = present.old; flags = flags.old; trace = trace.old }) (record { state = state.exit.now; text = text.new; trace = trace.new }) start result }
{
    let mut stand = start;
    loop {
        let n = stand.size;
        match next_due(&text[..n], flags, budget, stand)? {
            Due::Over(end) => {
                return Ok(end);
            }
            Due::Pass(k) => {
                stand = step(
                    table, count, kinds, state, text, new, present, flags, trace, traced, budget,
                    stand, k,
                )?;
            }
        }
    }
}
