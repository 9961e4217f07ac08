// Items of two bytes, a code of the table's form and an operand: storing one, and how many bytes an action's take; a number in two bytes; and storing zeros.
#![tactic(auto)]

pub mod codes;
pub mod layout;

ghost use Rattle.std.specs.Prelude.{◌≤◌, ◌<◌, ◌+◌, ◌≡◌, [], ◌∷◌, length, replicate};
ghost use Rattle.form_table.specs.Actions.{action_size, Held};
ghost use Rattle.form_table.specs.Check.{two_at};
ghost use Rattle.form_items.specs.Items.{Wrote};

// Stores one item, from place n on.
pub fn put_item(out: &mut [u8], n: usize, x: u8, y: u8)
    requires { n + 1 < length out.old }
    ensures { Wrote out.old out.new n (x ∷ y ∷ []) }
{
    out[n] = x;
    out[n + 1] = y;
}

// The bytes that the action takes.
pub fn action_size(t: &[u8]) -> usize
    requires { Held t.now }
    ensures { result ≡ action_size t.now }
{
    match t[0] {
        ..64 => 2,
        64..72 => 4,
        72..80 => {
            let size = t[3] as usize;
            4 + size + size % 2
        }
        _ => 6,
    }
}

// The number in two bytes, low byte first.
pub fn two_at(s: &[u8], p: usize) -> usize
    requires { p + 1 < length s.now }
    ensures { (result ≡ two_at s.now p) × (result ≤ 65535) }
{
    u16::from_le_bytes([s[p], s[p + 1]]) as usize
}

// Zeros in k bytes, from place n on.
pub fn clear(out: &mut [u8], n: usize, k: usize)
    requires { n + k ≤ length out.old }
    ensures { Wrote out.old out.new n (replicate k 0) }
{
    out[n..n + k].fill(0);
}
