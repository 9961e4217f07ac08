// Which bytes a line has, and whether a pattern must have one that is not among them, or that is not at a place.
#![tactic(auto)]

ghost use Rattle.std.specs.Prelude.{◌≡◌, ◌≤◌, length};
ghost use Rattle.pass_lack.specs.Twos.{Exactly, LetterIn, Pairs};
ghost use Rattle.pass_lack.specs.Lacking.{flags_of, Absent, SomeAbsent, differs_in};

use form_items::codes::{LITERAL, START};

// The bytes that a line has, for the passes over it: a flag for each byte that there is.
pub fn note(line: &[u8], present: &mut [u8])
    requires { length present.old ≡ 256 }
    ensures { present.new ≡ flags_of line.now }
{
    present.fill(0);
    for b in line {
        present[usize::from(*b)] = 1;
    }
}

// Whether an item is a literal that must stand, once or more, and the line lacks it.
fn lacks_item(code: u8, b: u8, present: &[u8]) -> bool
    requires { length present.now ≡ 256 }
    ensures { Exactly result (Absent present.now code b) }
{
    matches!(code, LITERAL..=9) && present[usize::from(b)] == 0
}

// Whether a pattern must have a byte that the line lacks.
pub fn lacks(items: &[u8], present: &[u8]) -> bool
    requires { Pairs LetterIn items.now × (length items.now ≤ 1014) × (length present.now ≡ 256) }
    ensures { Exactly result (SomeAbsent present.now items.now) }
{
    let mut rest = items;
    while let [code, b, behind @ ..] = rest {
        if lacks_item(*code, *b, present) {
            return true;
        }
        rest = behind;
    }
    false
}

// Whether the pattern begins with a literal that must stand at p and does not, or with `^` where p is not 0: most places are decided so.
pub fn differs(items: &[u8], line: &[u8], p: usize) -> bool
    ensures { result ≡ differs_in items.now line.now p }
{
    match items {
        [START, _, ..] => 0 < p,
        [LITERAL..=9, b, ..] => line.len() <= p || *b != line[p],
        _ => false,
    }
}
