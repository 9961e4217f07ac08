// Replacing (01, part 4): what an occurrence inserts and changes; and what the calls before a pattern change (02, N2).
#![tactic(auto)]

mod actions;
mod tags;

ghost use Rattle.pass_replace.specs.Contract.{Lent, Occurs, Prepared, Prepares};

use actions::act;
use form_items::layout::{BEFORE_AT, COMMANDS_AT, HEADER_BYTES, PATTERN_AT, REPLACEMENT_AT};
use form_items::two_at;
use refusals::WorkError;

// "For each occurrence replacement and then commands act, left to right":
// the macro of a slot, with the division whose spans end where `ends` says.
// The commands' items stand behind the replacement's, and are actions too.
pub fn occurrence(
    slot: &[u8],
    ends: &[u16],
    line: &[u8],
    state: &mut [u8],
    out: &mut [u8],
    size: usize,
) -> Result<usize, WorkError>
    requires { Lent slot.now ends.now line.now state.old out.old size }
    ensures { Occurs slot.now ends.now line.now state.old state.new out.old out.new size result }
{
    let pattern = HEADER_BYTES + two_at(slot, BEFORE_AT);
    let replacement = pattern + two_at(slot, PATTERN_AT);
    let commands = replacement + two_at(slot, REPLACEMENT_AT);
    let end = commands + two_at(slot, COMMANDS_AT);
    act(
        &slot[pattern..replacement],
        ends,
        line,
        &slot[replacement..end],
        state,
        out,
        size,
    )
}

// 02, N2: the calls before the pattern of a slot's macro, left to right. They take no tag and insert nothing; where there are none, nothing is done.
pub fn calls_act(slot: &[u8], state: &mut [u8]) -> Result<usize, WorkError>
    requires { Prepared slot.now state.old }
    ensures { Prepares slot.now state.old state.new result }
{
    let n = two_at(slot, BEFORE_AT);
    if n == 0 {
        return Ok(0);
    }
    let pattern = HEADER_BYTES + n;
    let ends = [0u16; 1014];
    let mut none = [0u8; 1054];
    act(
        b"",
        &ends,
        b"",
        &slot[HEADER_BYTES..pattern],
        state,
        &mut none,
        0,
    )
}
