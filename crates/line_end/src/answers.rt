// What a line answers, from its end and its control line.
ghost use Rattle.std.specs.Prelude.{◌≡◌};
ghost use Rattle.line_answer.specs.Fed.{size_of};
ghost use Rattle.line_end.specs.Answers.{withheld_by, ruled_fed, fed_of};

use line_answer::{Fed, LineError, Why};
use line_control::ControlError;
use line_stand::{Ended, PassesError};

// Whether a line without a refusal is withheld: "if NFLAG is 1 and it had no occurrence".
fn withholds(flag: u8, occurred: bool) -> bool
    ensures { result ≡ withheld_by flag occurred }
{
    if occurred {
        return false;
    }
    0 < flag
}

// A control line's.
fn ruled(order: Result<(), ControlError>, begun: usize) -> Result<Fed, LineError>
    ensures { result ≡ ruled_fed order begun }
{
    match order {
        Ok(()) => Ok(Fed::Control(begun)),
        Err(w) => Err(LineError {
            why: Why::from(w),
            passes: begun,
        }),
    }
}

// A line's, `flag` being NFLAG after it and `order` what came of it if it was a control line.
pub(crate) fn fed_of(
    ended: Result<Ended, PassesError>,
    order: Result<(), ControlError>,
    flag: u8,
) -> Result<Fed, LineError>
    ensures { result ≡ fed_of flag ended order }
{
    match ended? {
        Ended::Done(n, occurred, begun) => {
            if withholds(flag, occurred) {
                return Ok(Fed::Withheld(begun));
            }
            Ok(Fed::Out(begun, n))
        }
        Ended::Control(_, begun) => ruled(order, begun),
    }
}

// How many bytes go out.
pub(crate) fn size_of(fed: Result<Fed, LineError>) -> usize
    ensures { result ≡ size_of fed }
{
    match fed {
        Ok(Fed::Out(_, n)) => n,
        _ => 0,
    }
}
