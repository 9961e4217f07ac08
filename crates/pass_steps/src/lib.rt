// For what an action does: a text stored at a place, the text of a tag or of an entry, and whether a code is one of several.
#![tactic(auto)]

ghost use Rattle.std.specs.Prelude.{◌≡◌, ◌+◌, ◌≤◌, length};
ghost use Rattle.std.proofs.Math.Seq.{paste};
ghost use Rattle.macros.specs.Macro.{within};
ghost use Rattle.pass_steps.specs.Texts.{Lends, Hands};

use form_state::entry;

// The bytes of a text from a place on.
pub fn copy(out: &mut [u8], at: usize, bytes: &[u8])
    requires { at + length bytes.now ≤ length out.old }
    ensures { out.new ≡ paste out.old at bytes.now (length bytes.now) }
{
    for i in 0..bytes.len() {
        out[at + i] = bytes[i];
    }
}

// Whether a code is one of those from a to z.
pub fn is_within(a: u8, z: u8, b: u8) -> bool
    ensures { result ≡ within a z b }
{
    (a <= b) & (b <= z)
}

// A part of the line: from a place up to another.
#[derive(Clone, Copy, Debug, PartialEq, Eq)]
pub struct Span {
    pub from: usize,
    pub to: usize,
}

// Whose text: a tag's, with its span of the line, or that of the current entry of a stack, by its letter.
#[derive(Clone, Copy, Debug, PartialEq, Eq)]
pub enum Text {
    Tag(Span),
    Entry(u8),
}

// "The text of a tag or stack call is handed out as a part of the line or of the stack memory."
pub fn part<'a>(line: &'a [u8], state: &'a [u8], whose: Text) -> &'a [u8]
    requires { Lends line.now state.now whose }
    ensures { Hands line.now state.now whose result.now }
{
    match whose {
        Text::Tag(Span { from, to }) => &line[from..to],
        Text::Entry(i) => entry(state, i),
    }
}
