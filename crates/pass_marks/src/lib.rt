// The marks of failed pairs of a closure and a place: a bit for each, in rows of 132 bytes an item.
#![tactic(auto)]

ghost use Rattle.std.specs.Prelude.{◌≤◌, ◌≡◌, eqb, length};
ghost use Rattle.pass_marks.specs.Marks.{mark, ByteThere, marked, cleared};

// Whether the pair was found to have failed.
#[tactic(auto, unfolding(crate::specs::Marks::mark))]
pub fn is_marked(marks: &[u8], at: usize, q: usize) -> bool
    requires { ByteThere marks.now at q }
    ensures { result ≡ eqb (mark marks.now at q) 1 }
{
    let byte = marks[at * 66 + q / 8];
    let shift = (q % 8) as u8;
    (byte >> shift) % 2 == 1
}

// The pair is found to have failed: its bit is set in its byte, and every other byte stays.
pub fn set_mark(marks: &mut [u8], at: usize, q: usize)
    requires { ByteThere marks.old at q }
    ensures { marks.new ≡ marked marks.old at q }
{
    if is_marked(marks, at, q) {
        return;
    }
    let i = at * 66 + q / 8;
    let bit = (q % 8) as u8;
    marks[i] += 1 << bit;
}

// No mark is set among the first n bytes.
pub fn clear(marks: &mut [u8], n: usize)
    requires { n ≤ length marks.old }
    ensures { marks.new ≡ cleared marks.old n }
{
    marks[..n].fill(0);
}
