// What a call changes (01, part 4): pointers, counters and entries. Each answer has the size of the new line, which stays.
#![tactic(auto)]

mod setting;

ghost use Rattle.std.specs.Prelude.{◌≡◌, ◌≤◌, ◌<◌};
ghost use Rattle.macros.specs.Macro.Mark.{stack, counter};
ghost use Rattle.macros.specs.Bounds.{most_entries, most_counter};
ghost use Rattle.macros.specs.Formed.{Between, Bytes, Letter};
ghost use Rattle.lines.specs.Replacing.{moves, stores};
ghost use Rattle.form_state.specs.Access.{IsState};
ghost use Rattle.pass_call.specs.Moving.{Onward, moved_in, sign_in, move_in, moves_in, sets_in};
ghost use Rattle.pass_steps.specs.Moments.{Changes};

use form_state::{increment, pointer, value};
use refusals::{WorkError, WorkFault};
use setting::{set_entry, set_increment, set_pointer, set_value};

// "A pointer or counter that would fall below 1 is 1."
fn moved(n: u32, by: u32, up: bool) -> u32
    requires { (n ≤ most_counter) × (by ≤ most_counter) }
    ensures { result ≡ moved_in n by up }
{
    if up {
        n + by
    } else {
        n.saturating_sub(by).max(1)
    }
}

// 34: "pointer past 20".
fn move_pointer(state: &mut [u8], i: u8, up: bool, size: usize) -> Result<usize, WorkError>
    requires { IsState state.old × Letter i }
    ensures { Changes (moves stack (sign_in up) i) state.old size state.new result }
{
    let n = moved(u32::from(pointer(state, i)), 1, up);
    if 20 < n {
        return Err(WorkError {
            fault: WorkFault::PointerTooHigh,
            size,
        });
    }
    set_pointer(state, i, n as u8);
    Ok(size)
}

// 35: "counter past its end".
fn move_value(state: &mut [u8], i: u8, up: bool, size: usize) -> Result<usize, WorkError>
    requires { IsState state.old × Letter i }
    ensures { Changes (moves counter (sign_in up) i) state.old size state.new result }
{
    let n = moved(value(state, i), increment(state, i), up);
    if 999999999 < n {
        return Err(WorkError {
            fault: WorkFault::CounterTooHigh,
            size,
        });
    }
    set_value(state, i, n);
    Ok(size)
}

// The move of an action's code; that of an action that moves nothing is 0.
fn move_of(code: u8) -> u8
    ensures { (result ≡ move_in code) × (0 < result → 48 ≤ code) }
{
    match code {
        48..=79 => code % 8,
        _ => 0,
    }
}

// The move before the access, where first is 1, or after it, where first is 3. Behind a refusal nothing moves.
pub fn shift(
    state: &mut [u8],
    code: u8,
    i: u8,
    first: u8,
    done: Result<usize, WorkError>,
) -> Result<usize, WorkError>
    requires { IsState state.old × (1 ≤ first) × (first ≤ 3) × (48 ≤ code → Letter i) }
    ensures { Onward (moves_in first code i) state.old done state.new result }
{
    let size = done?;
    let m = move_of(code);
    let up = m == first;
    if !up && m != first + 1 {
        return Ok(size);
    }
    match code {
        56..=63 => move_value(state, i, up, size),
        _ => move_pointer(state, i, up, size),
    }
}

// 33: "a stored tag over 100 bytes".
pub fn store(state: &mut [u8], i: u8, text: &[u8], size: usize) -> Result<usize, WorkError>
    requires { IsState state.old × Letter i × Bytes text.now }
    ensures { Changes (stores i text.now) state.old size state.new result }
{
    if 100 < text.len() {
        return Err(WorkError {
            fault: WorkFault::TagTooLong,
            size,
        });
    }
    set_entry(state, i, text);
    Ok(size)
}

// `&(i=n)`, `#(i=n)` and `#(i,n)`.
pub fn set(state: &mut [u8], code: u8, i: u8, n: u32, size: usize) -> Result<usize, WorkError>
    requires { IsState state.old × Letter i × (code < 88 → Between 1 most_entries n) × (88 ≤ code → Between 1 most_counter n) }
    ensures { Changes (sets_in code i n) state.old size state.new result }
{
    match code {
        ..88 => set_pointer(state, i, n as u8),
        88..96 => set_value(state, i, n),
        _ => set_increment(state, i, n),
    }
    Ok(size)
}
