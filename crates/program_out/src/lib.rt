// Text for standard output, or another writer, by way of a memory that the caller lends: its first `used` bytes are not yet written.
#![tactic(auto)]

ghost use Rattle.std.specs.Prelude.{◌≡◌, ◌+◌, ◌≤◌, length};
ghost use Rattle.program_out.specs.Writing.{appends, puts, Gives, Behind};

use std::io::Write;

// Appends a text, for which there is room, to the first `used` bytes. The second clause follows from the first, for callers.
pub fn append(to: &mut [u8], used: usize, text: &[u8]) -> usize
    requires { used + length text.now ≤ length to.old }
    ensures gives { Gives (appends to.old used text.now) to.new result }
    ensures behind { Behind to.old used text.now to.new result }
{
    let end = used + text.len();
    to[used..end].copy_from_slice(text);
    end
}

// Appends a text; where there is no room, what is held is written out first. Answers how many bytes are then held.
// A write that fails is passed over.
pub fn put_text<W: Write>(writer: &mut W, out: &mut [u8], used: usize, text: &[u8]) -> usize
    requires { used ≤ length out.old }
    ensures gives { Gives (puts out.old used text.now) out.new result }
    ensures upper_bound { result ≤ length out.old }
{
    if text.len() <= out.len() - used {
        return append(out, used, text);
    }
    let _ = writer.write_all(&out[..used]);
    if text.len() <= out.len() {
        return append(out, 0, text);
    }
    let _ = writer.write_all(text);
    0
}
