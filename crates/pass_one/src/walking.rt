// A pass, place by place.
ghost use Rattle.std.specs.Prelude.{◌≡◌, true};
ghost use Rattle.pass_one.specs.Contract.{Passes};
ghost use Rattle.pass_one.specs.Seen.{Seen};
ghost use Rattle.pass_one.specs.Finding.{Ready};
ghost use Rattle.pass_one.specs.Places.{AtPlace, Makes, GoesBy, Searches, Walking, Walks, WalksTo};

use crate::keeping::renew;
use crate::matcher::{counted, elements, last_place};
use pass_lack::differs;
use pass_moment::{Moment, Passed, after, answer, start, step_over};
use pass_replace::occurrence;
use refusals::WorkError;

// Where the first match of a pass begins and ends.
// "A pass of one macro tries places from 0 to the line's length, both included." Up to the first match nothing changes.
pub(crate) fn first_match(
    items: &[u8],
    kinds: &[u8; 256],
    line: &[u8],
    state: &[u8],
    marks: &mut [u8],
    ends: &mut [u16],
) -> Option<(usize, usize)>
    requires { Ready items.now kinds.now state.now line.now 0 marks.old ends.old }
    ensures { Searches items.now state.now line.now marks.old marks.new ends.new result }
{
    let top = last_place(items, line);
    for p in 0..top + 1 {
        if differs(items, line, p) {
            continue;
        }
        if let Some(end) = elements(items, kinds, state, line, 0, p, marks, ends) {
            return Some((p, end));
        }
    }
    None
}

// A match that ends at `end` makes the replacement.
fn replace(
    slot: &[u8],
    items: &[u8],
    line: &[u8],
    at: Moment,
    end: usize,
    state: &mut [u8],
    out: &mut [u8],
    marks: &mut [u8],
    seen: &mut [u8],
    ends: &[u16],
) -> Moment
    requires { Makes slot.now items.now line.now state.old out.old marks.old ends.now at end × Seen items.now seen.old state.old }
    ensures { GoesBy slot.now items.now line.now state.old state.new out.old out.new marks.old marks.new seen.new ends.now at result × (result.occurred ≡ true) }
{
    let made = occurrence(slot, ends, line, state, out, at.size);
    renew(items, state, seen, marks);
    after(made, end)
}

// A place is tried: a match there makes the replacement. Without one nothing changes yet.
fn go_on(
    slot: &[u8],
    items: &[u8],
    kinds: &[u8; 256],
    line: &[u8],
    at: Moment,
    state: &mut [u8],
    out: &mut [u8],
    marks: &mut [u8],
    seen: &mut [u8],
    ends: &mut [u16],
) -> Moment
    requires { AtPlace slot.now items.now kinds.now line.now state.old out.old marks.old ends.old at × Seen items.now seen.old state.old }
    ensures { GoesBy slot.now items.now line.now state.old state.new out.old out.new marks.old marks.new seen.new ends.new at result }
{
    let p = at.place;
    let whole = elements(items, kinds, state, line, 0, p, marks, ends);
    let Some(end) = counted(whole, at.last, p) else {
        return at;
    };
    replace(slot, items, line, at, end, state, out, marks, seen, ends)
}

// The places behind the first match are tried, up to the line's length.
fn walk_on(
    slot: &[u8],
    items: &[u8],
    kinds: &[u8; 256],
    line: &[u8],
    from: Moment,
    state: &mut [u8],
    out: &mut [u8],
    marks: &mut [u8],
    seen: &mut [u8],
    ends: &mut [u16],
) -> Result<Passed, WorkError>
    requires { Walks slot.now items.now kinds.now line.now state.old out.old marks.old seen.old ends.old from }
    ensures { WalksTo slot.now items.now kinds.now line.now state.old state.new out.old out.new marks.old seen.old ends.old from result }
{
    let mut at = from;
    while at.place <= line.len() {
        let p = at.place;
        if differs(items, line, p) {
            at = step_over(line, p, at, out);
        } else {
            let next = go_on(slot, items, kinds, line, at, state, out, marks, seen, ends);
            at = step_over(line, p, next, out);
        }
    }
    answer(at)
}

// A pass whose first match begins at `first` and ends at `end`: what is before it is copied, and the replacement is made.
pub(crate) fn walk(
    slot: &[u8],
    items: &[u8],
    kinds: &[u8; 256],
    line: &[u8],
    first: usize,
    end: usize,
    state: &mut [u8],
    out: &mut [u8],
    marks: &mut [u8],
    seen: &mut [u8],
    ends: &mut [u16],
) -> Result<Passed, WorkError>
    requires { Walking slot.now items.now kinds.now line.now state.old out.old marks.old ends.old first end × Seen items.now seen.old state.old }
    ensures { Passes slot.now line.now state.old state.new out.old out.new result }
{
    let begun = start(line, first, out);
    let made = replace(slot, items, line, begun, end, state, out, marks, seen, ends);
    let at = step_over(line, first, made, out);
    walk_on(slot, items, kinds, line, at, state, out, marks, seen, ends)
}
