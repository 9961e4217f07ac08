// Tags (01, part 3): where the text of a tag stands in the line.
ghost use Rattle.std.specs.Prelude.{◌≡◌, ◌-◌, ◌≤◌, length};
ghost use Rattle.form_table.specs.Form.{body_bytes};
ghost use Rattle.pass_replace.specs.Tags.{close_in, tag_in, Ended, Spans};

use pass_steps::Span;

// Where the tag ends whose inside begins with the first item: at its own right brace, those of tags inside passed over.
fn close_of(pat: &[u8], ends: &[u16]) -> usize
    requires { (length pat.now ≤ length ends.now) × (length pat.now ≤ body_bytes) }
    ensures { result ≡ close_in 0 pat.now ends.now }
{
    let mut n: usize = 0;
    let mut rest = pat;
    let mut stops = ends;
    while let [code, _, behind @ ..] = rest {
        match *code {
            1 => n += 1,
            2 if n == 0 => return usize::from(stops[0]),
            2 => n -= 1,
            _ => {}
        }
        rest = behind;
        stops = &stops[2..];
    }
    0
}

// The span of tag n, empty where it would end before its start. Tags count from 1.
pub(crate) fn tag_of(pat: &[u8], ends: &[u16], n: u8) -> Span
    requires { Ended pat.now ends.now }
    ensures { Spans (λ l. tag_in l (n - 1) pat.now ends.now) ends.now result.from result.to }
{
    let mut left = n;
    let mut rest = pat;
    let mut stops = ends;
    while let [code, _, behind @ ..] = rest {
        if *code == 1 {
            if left < 2 {
                let to = close_of(behind, &stops[2..]);
                let from = usize::from(stops[0]).min(to);
                return Span { from, to };
            }
            left -= 1;
        }
        rest = behind;
        stops = &stops[2..];
    }
    Span { from: 0, to: 0 }
}
