// Control lines (01, part 6): what one orders.
#![tactic(auto)]

mod flags;

ghost use Rattle.std.specs.Prelude.{◌≡◌, ◌≤◌, length};
ghost use Rattle.macros.specs.Bounds.{most_macros};
ghost use Rattle.macros.specs.Formed.{Bytes};
ghost use Rattle.form_table.specs.Form.{table_bytes};
ghost use Rattle.form_state.specs.Access.{IsState};
ghost use Rattle.line_memory.specs.Memory.{Counted};
ghost use Rattle.line_control.specs.Contract.{Orders};
ghost use Rattle.line_control.specs.Ordering.{AddsOne, OneMore};
ghost use Rattle.line_control.specs.declared.ControlError.TheVariants.{InMacro};

use flags::set_flag;
use read_file::file::read_onto;
use read_scan::ReadError;

// Why a control line is refused: 23, or a fault in its macro with the place.
#[derive(Clone, Copy, Debug, PartialEq, Eq)]
pub enum ControlError {
    BadControl,
    InMacro(ReadError),
}

impl From<ReadError> for ControlError {
    ghost from_gives = { λ e r. r ≡ InMacro e };

    fn from(e: ReadError) -> ControlError {
        ControlError::InMacro(e)
    }
}

// Whether a table of n macros has one more than it had; "a count other than one gives 23", and all behind the old ones is cleared.
fn one_more(table: &mut [u8], count: usize, n: usize) -> Result<(), ControlError>
    requires { (count ≤ most_macros) × (length table.old ≡ table_bytes) }
    ensures { OneMore table.old table.new count n result }
{
    if n == count + 1 {
        return Ok(());
    }
    table[1024 * count..].fill(0);
    Err(ControlError::BadControl)
}

// "`$MACRO` and the bytes after it, read as a macro file of one macro, adds the newest."
fn add_macro(table: &mut [u8], count: usize, rest: &[u8]) -> Result<(), ControlError>
    requires { Counted table.old count × Bytes rest.now }
    ensures { AddsOne table.old table.new count rest.now result }
{
    let n = read_onto(rest, table, count)?;
    one_more(table, count, n)
}

// Carries out a control line. A refused one leaves table and state as they were.
pub fn control(
    table: &mut [u8],
    count: usize,
    state: &mut [u8],
    line: &[u8],
) -> Result<(), ControlError>
    requires { Counted table.old count × IsState state.old × Bytes line.now }
    ensures { Orders table.old table.new state.old state.new count line.now result }
{
    match line.strip_prefix(b"$MACRO") {
        Some(rest) => add_macro(table, count, rest),
        None => set_flag(state, line),
    }
}
