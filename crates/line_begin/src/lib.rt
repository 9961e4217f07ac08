// A pass of a macro, with how it begins (02, N2).
#![tactic(auto)]

ghost use Rattle.line_begin.specs.Beginning.{PrepareLent, MacroPrepares, PassLent, PassRuns};

use pass_moment::Passed;
use pass_one::pass;
use pass_replace::calls_act;
use refusals::WorkError;

// A macro's byte is 0 until its first pass on the line begins, and then this.
const BEGUN: u8 = 2;

// "It runs when the macro's first pass on the line begins": the calls before the pattern of the macro k, and at no later pass.
fn prepare(slot: &[u8], state: &mut [u8], flags: &mut [u8], k: usize) -> Result<usize, WorkError>
    requires { PrepareLent slot.now state.old flags.old k }
    ensures { MacroPrepares slot.now state.old state.new flags.old flags.new k result }
{
    let before = flags[k];
    flags[k] = BEGUN;
    if before != 0 {
        return Ok(0);
    }
    calls_act(slot, state)
}

// The calls before the pattern, if they are due, and then the places are tried; if a call is refused, none is tried.
pub fn run_pass(
    slot: &[u8],
    kinds: &[u8; 256],
    present: &[u8],
    line: &[u8],
    state: &mut [u8],
    new: &mut [u8],
    flags: &mut [u8],
    k: usize,
) -> Result<Passed, WorkError>
    requires { PassLent slot.now kinds.now present.now line.now state.old new.old flags.old k }
    ensures { PassRuns slot.now line.now (record { state = state.entry.now; new = new.old; flags = flags.old }) (record { state = state.exit.now; new = new.new; flags = flags.new }) k result }
{
    if let Err(WorkError { fault, .. }) = prepare(slot, state, flags, k) {
        return Err(WorkError { fault, size: 0 });
    }
    pass(slot, kinds, present, line, state, new)
}
