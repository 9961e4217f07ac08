// Replacement and commands (01, part 4), from their items.
ghost use Rattle.std.specs.Prelude.{◌≡◌, ◌≤◌, ◌<◌, get_or};
ghost use Rattle.std.proofs.Math.Seq.{slice};
ghost use Rattle.form_table.specs.Actions.{text_in};
ghost use Rattle.form_state.specs.Access.{IsState};
ghost use Rattle.pass_replace.specs.Tags.{Ended, Spans, Divided};
ghost use Rattle.pass_steps.specs.Texts.{Cut};
ghost use Rattle.pass_texts.specs.Inserting.{Fit};
ghost use Rattle.pass_replace.specs.Acting.{Fits, tagged_in, access_in, action_in, acts_in, act_in};
ghost use Rattle.pass_steps.specs.Moments.{Room, Does, Changes};

use crate::tags::tag_of;
use form_bytes::number_at;
use form_items::action_size;
use form_state::value;
use pass_call::{set, shift, store};
use pass_steps::{Span, Text, part};
use pass_texts::{insert, put_divided};
use refusals::WorkError;

// The text of `&(i:text:)`.
fn text_in(t: &[u8]) -> &[u8]
    requires { Fit t.now × (72 ≤ get_or t.now 0 0) × (get_or t.now 0 0 < 80) }
    ensures { result.now ≡ text_in t.now }
{
    let end = 4 + usize::from(t[3]);
    &t[4..end]
}

// What an action stores or sets. While a tag is stored the state is not lent: a tag's text stands in the line.
fn change(
    line: &[u8],
    span: Span,
    t: &[u8],
    state: &mut [u8],
    size: usize,
) -> Result<usize, WorkError>
    requires { Cut line.now span.from span.to × Fit t.now × IsState state.old × (64 ≤ get_or t.now 0 0) × (get_or t.now 0 0 < 104) }
    ensures { Changes (access_in (slice span.from span.to line.now) t.now) state.old size state.new result }
{
    let code = t[0];
    let i = t[1];
    match code {
        ..72 => store(state, i, part(line, b"", Text::Tag(span)), size),
        72..80 => store(state, i, text_in(t), size),
        _ => set(state, code, i, number_at(t, 2), size),
    }
}

// An action without its moves: it inserts, stores, sets or inserts a quotient.
fn access(
    line: &[u8],
    span: Span,
    t: &[u8],
    state: &mut [u8],
    out: &mut [u8],
    size: usize,
) -> Result<usize, WorkError>
    requires { Cut line.now span.from span.to × Fit t.now × IsState state.old × Room out.old size }
    ensures { Does (access_in (slice span.from span.to line.now) t.now) out.old state.old size out.new state.new result }
{
    match t[0] {
        ..64 => insert(line, span, t, state, out, size),
        64..104 => change(line, span, t, state, size),
        _ => put_divided(value(state, t[1]), number_at(t, 2), out, size),
    }
}

// "the pointer moves before or after the access"; the counter likewise.
fn action(
    line: &[u8],
    span: Span,
    t: &[u8],
    state: &mut [u8],
    out: &mut [u8],
    size: usize,
) -> Result<usize, WorkError>
    requires { Cut line.now span.from span.to × Fit t.now × IsState state.old × Room out.old size }
    ensures { Does (action_in (slice span.from span.to line.now) t.now) out.old state.old size out.new state.new result }
{
    let code = t[0];
    let i = t[1];
    let size = shift(state, code, i, 1, Ok(size))?;
    let size = access(line, span, t, state, out, size)?;
    shift(state, code, i, 3, Ok(size))
}

// The span of the tag that the action takes: `{n}` or `&(n,i)`; any other takes none.
fn span_of(pat: &[u8], ends: &[u16], t: &[u8]) -> Span
    requires { Ended pat.now ends.now × Fit t.now }
    ensures { Spans (λ l. tagged_in l pat.now ends.now t.now) ends.now result.from result.to }
{
    match t[0] {
        41 => tag_of(pat, ends, t[1]),
        64..=71 => tag_of(pat, ends, t[3]),
        _ => Span { from: 0, to: 0 },
    }
}

// The actions, left to right. What they insert goes straight to the new line, behind its size bytes.
pub(crate) fn act(
    pat: &[u8],
    ends: &[u16],
    line: &[u8],
    items: &[u8],
    state: &mut [u8],
    out: &mut [u8],
    size: usize,
) -> Result<usize, WorkError>
    requires { Divided pat.now ends.now line.now × Fits items.now × IsState state.old × Room out.old size }
    ensures { Does (act_in (acts_in line.now pat.now ends.now) 0 items.now) out.old state.old size out.new state.new result }
{
    let mut size = size;
    let mut rest = items;
    while !rest.is_empty() {
        let span = span_of(pat, ends, rest);
        size = action(line, span, rest, state, out, size)?;
        rest = &rest[action_size(rest)..];
    }
    Ok(size)
}
