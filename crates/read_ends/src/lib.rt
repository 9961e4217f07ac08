// How the parts of a macro end: what a refusal leaves.
#![tactic(auto)]

ghost use Rattle.std.specs.Prelude.{◌≡◌};
ghost use Rattle.read_ends.specs.Ends.{left_by};

use read_scan::ReadError;

// What was read, the place behind it and the end of the items written; a refusal leaves zeros in the lent bytes.
pub fn or_zeros(
    out: &mut [u8],
    read: Result<(usize, usize), ReadError>,
) -> Result<(usize, usize), ReadError>
    ensures { (result ≡ read) × (out.new ≡ left_by out.old read) }
{
    if read.is_err() {
        out.fill(0);
    }
    read
}
