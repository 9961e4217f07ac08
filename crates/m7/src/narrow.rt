// A state, made one of the old size (02, N6).
ghost use Rattle.m7.specs.Widening.{Narrows};

use crate::STATE_BYTES;
use crate::answers::{refusal, taken};
use form_old::OLD_STATE_BYTES;
use line_answer::Answer;

// Stores the same state in the old size: 3, then 2 over the whole state, then 42, an entry over 50 bytes. A refusal leaves the memory as
// it was.
pub fn m7_narrow(state: &[u8], old: &mut [u8]) -> Answer
    ensures { Narrows state.now old.old result old.new }
{
    if state.len() != STATE_BYTES {
        return refusal(3, 0);
    }
    if old.len() != OLD_STATE_BYTES {
        return refusal(3, 0);
    }
    let sound = check_state::is_state(state);
    let short = form_old::is_short(state);
    if !sound {
        return refusal(2, 0);
    }
    if !short {
        return refusal(42, 0);
    }
    form_old::narrow(state, old);
    taken(0)
}
