// A number in four bytes, low byte first: read and stored in lent bytes. Whether bytes are all 0.
#![tactic(auto)]

ghost use Rattle.std.specs.Prelude.{◌+◌, ◌≤◌, ◌≡◌, ◌&&◌, length};
ghost use Rattle.form_bytes.specs.Fours.{number_at, with_number};
ghost use Rattle.form_bytes.specs.Zeros.{all_zero};

// The number that stands at a place.
pub fn number_at(s: &[u8], at: usize) -> u32
    requires { at + 4 ≤ length s.now }
    ensures { result ≡ number_at s.now at }
{
    u32::from_le_bytes([s[at], s[at + 1], s[at + 2], s[at + 3]])
}

// Stores the number n at a place.
pub fn put_number(out: &mut [u8], at: usize, n: u32)
    requires { at + 4 ≤ length out.old }
    ensures { out.new ≡ with_number out.old at n }
{
    out[at..at + 4].copy_from_slice(&n.to_le_bytes());
}

// Whether each byte is 0. A fold has no early exit, so that the loop is vectorised.
pub fn all_zero(s: &[u8]) -> bool
    ensures { result ≡ all_zero s.now }
{
    s.iter().fold(0, |all, b| all | *b) == 0
}

// The answer of `all_zero`, for many bytes: four quarters side by side, and the at most three bytes behind them. The longer turn of the
// loop takes the same time wherever the linker puts it; a short turn may take twice as long.
pub fn all_zero_by_four(s: &[u8]) -> bool
    ensures { result ≡ all_zero s.now }
{
    let q = s.len() / 4;
    let quarters = four_zero(&s[..q], &s[q..2 * q], &s[2 * q..3 * q], &s[3 * q..4 * q]);
    quarters & all_zero(&s[4 * q..])
}

// Whether each byte of four parts of one length is 0.
fn four_zero(a: &[u8], b: &[u8], c: &[u8], d: &[u8]) -> bool
    requires { (length b.now ≡ length a.now) × (length c.now ≡ length a.now) × (length d.now ≡ length a.now) }
    ensures { result ≡ (all_zero a.now && all_zero b.now) && (all_zero c.now && all_zero d.now) }
{
    let pairs = a.iter().zip(b).zip(c.iter().zip(d));
    pairs.fold(0, |all, ((a, b), (c, d))| all | ((*a | *b) | (*c | *d))) == 0
}
