// The memories of a line: a text with zeros behind it. What a table's memory holds stands in specs/.
#![tactic(auto)]

ghost use Rattle.std.specs.Prelude.{◌≡◌, ◌++◌, ◌≤◌, length, drop};
ghost use Rattle.line_memory.specs.Memory.{padded, laid_if};

// The bytes of one memory over the first of another.
fn copy_over(to: &mut [u8], from: &[u8])
    requires { length from.now ≤ length to.old }
    ensures { to.new ≡ from.now ++ drop (length from.now) to.old }
{
    for i in 0..from.len() {
        to[i] = from[i];
    }
}

// A text, and zeros behind it to the memory's end.
pub fn lay_out(to: &mut [u8], text: &[u8])
    requires { length text.now ≤ length to.old }
    ensures { to.new ≡ padded text.now (length to.old) }
{
    let n = text.len();
    copy_over(to, text);
    to[n..].fill(0);
}

// The same if it is asked for, else nothing.
pub fn lay_out_if(to: &mut [u8], text: &[u8], asked: bool)
    requires { length text.now ≤ length to.old }
    ensures { to.new ≡ laid_if asked text.now to.old }
{
    if asked {
        lay_out(to, text);
    }
}
