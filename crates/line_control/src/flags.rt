// The two control words that set a flag.
ghost use Rattle.form_state.specs.Access.{IsState};
ghost use Rattle.line_control.specs.Ordering.{Sets, Valued};

use crate::ControlError;

// A flag's value, from the bytes behind its word: 0 or 1.
fn flag_value(rest: &[u8]) -> Result<u8, ControlError>
    ensures { Valued rest.now result }
{
    if rest == b" 0".as_slice() {
        return Ok(0);
    }
    if rest == b" 1".as_slice() {
        return Ok(1);
    }
    Err(ControlError::BadControl)
}

// "`$TRACE 0`, `$TRACE 1`, `$NFLAG 0`, `$NFLAG 1`, exactly so, set a flag."
pub(crate) fn set_flag(state: &mut [u8], line: &[u8]) -> Result<(), ControlError>
    requires { IsState state.old }
    ensures { Sets state.old state.new line.now result }
{
    if let Some(rest) = line.strip_prefix(b"$TRACE") {
        state[0] = flag_value(rest)?;
        return Ok(());
    }
    if let Some(rest) = line.strip_prefix(b"$NFLAG") {
        state[1] = flag_value(rest)?;
        return Ok(());
    }
    Err(ControlError::BadControl)
}
