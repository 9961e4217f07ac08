// The fresh state.
ghost use Rattle.m7.specs.Contract.{Gives, freshens};

use crate::STATE_BYTES;
use crate::answers::{refusal, taken};
use line_answer::Answer;

// Stores the fresh state.
pub fn m7_fresh(state: &mut [u8]) -> Answer
    ensures { Gives (freshens state.old) result state.new }
{
    if state.len() != STATE_BYTES {
        return refusal(3, 0);
    }
    form_fresh::put_fresh(state);
    taken(0)
}
