// A byte for each macro: whether it is closed to the line.
ghost use Rattle.std.specs.Prelude.{◌≡◌, ◌≤◌, ◌<◌, length};
ghost use Rattle.line_stand.specs.Closed.{closed_flags, above, OpenBelow};

// Closed to the line.
const CLOSED: u8 = 1;

// The code of `<` in a slot.
const LESS: u8 = 1;

// The number of the newest open macro below `due`.
pub(crate) fn open_below(flags: &[u8], due: usize) -> Option<usize>
    requires { due ≤ length flags.now }
    ensures { OpenBelow flags.now due (above result) }
{
    flags[..due].iter().rposition(|f| *f != CLOSED)
}

// "A `<` macro that occurred is closed to this line".
#[tactic(auto, unfolding(crate::specs::Closed::closed_flags, macros::specs::Macro::pick))]
pub(crate) fn close(flags: &mut [u8], symbol: u8, k: usize)
    requires { k < length flags.old }
    ensures { flags.new ≡ closed_flags flags.old symbol k }
{
    if symbol == LESS {
        flags[k] = CLOSED;
    }
}
