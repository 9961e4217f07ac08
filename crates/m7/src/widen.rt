// A state saved with the old size, made one of the new size (02, N6).
ghost use Rattle.m7.specs.Widening.{Widens};

use crate::STATE_BYTES;
use crate::answers::{refusal, taken};
use form_old::OLD_STATE_BYTES;
use line_answer::Answer;

// Stores the same state in the new size: 3, then 2. What is no old state is no state when widened, so the check of 2 is that of every
// call. A refusal leaves the memory as it was.
pub fn m7_widen(old: &[u8], state: &mut [u8]) -> Answer
    ensures { Widens old.now state.old result state.new }
{
    if old.len() != OLD_STATE_BYTES {
        return refusal(3, 0);
    }
    if state.len() != STATE_BYTES {
        return refusal(3, 0);
    }
    let mut wide = [0u8; 52236];
    form_old::widen(old, &mut wide);
    if !check_state::is_state(&wide) {
        return refusal(2, 0);
    }
    line_memory::lay_out(state, &wide);
    taken(0)
}
