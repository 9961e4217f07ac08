// A pass (01, parts 3 and 5): one macro over one line.
#![tactic(auto)]

mod keeping;
mod matcher;
mod walking;

ghost use Rattle.pass_one.specs.Contract.{Lent, Passes};
ghost use Rattle.pass_one.specs.Places.{SomeSlot, ItemsOf, ToTry, Walking};

use form_items::layout::{BEFORE_AT, HEADER_BYTES, PATTERN_AT};
use form_items::two_at;
use keeping::has_calls;
use pass_lack::lacks;
use pass_moment::Passed;
use refusals::WorkError;
use walking::{first_match, walk};

// A pass. Without a match nothing changes. A pattern that must have a byte which the line lacks has no match.
pub fn pass(
    slot: &[u8],
    kinds: &[u8; 256],
    present: &[u8],
    line: &[u8],
    state: &mut [u8],
    out: &mut [u8],
) -> Result<Passed, WorkError>
    requires { Lent slot.now kinds.now present.now line.now state.old out.old }
    ensures { Passes slot.now line.now state.old state.new out.old out.new result }
{
    let items = items_of(slot);
    if lacks(items, present) {
        return Ok(Passed {
            occurred: false,
            size: line.len(),
        });
    }
    let rows = 66 * items.len();
    if rows <= 4096 {
        let mut few = [0u8; 4096];
        return tried(slot, items, kinds, line, state, out, &mut few[..rows]);
    }
    let mut marks = [0u8; 66924];
    tried(slot, items, kinds, line, state, out, &mut marks[..rows])
}

// A pass whose pattern may have a match; no mark is set yet.
fn tried(
    slot: &[u8],
    items: &[u8],
    kinds: &[u8; 256],
    line: &[u8],
    state: &mut [u8],
    out: &mut [u8],
    marks: &mut [u8],
) -> Result<Passed, WorkError>
    requires { ToTry slot.now items.now kinds.now line.now state.old out.old marks.old }
    ensures { Passes slot.now line.now state.old state.new out.old out.new result }
{
    let mut ends = [0u16; 1014];
    let Some((first, end)) = first_match(items, kinds, line, state, marks, &mut ends) else {
        return Ok(Passed {
            occurred: false,
            size: line.len(),
        });
    };
    matched(
        slot, items, kinds, line, first, end, state, out, marks, &mut ends,
    )
}

// A pass from its first match on; only a pattern with calls needs the state under which its marks were made.
fn matched(
    slot: &[u8],
    items: &[u8],
    kinds: &[u8; 256],
    line: &[u8],
    first: usize,
    end: usize,
    state: &mut [u8],
    out: &mut [u8],
    marks: &mut [u8],
    ends: &mut [u16],
) -> Result<Passed, WorkError>
    requires { Walking slot.now items.now kinds.now line.now state.old out.old marks.old ends.old first end }
    ensures { Passes slot.now line.now state.old state.new out.old out.new result }
{
    if has_calls(items) {
        let mut seen = [0u8; 52236];
        seen.copy_from_slice(state);
        return walk(
            slot, items, kinds, line, first, end, state, out, marks, &mut seen, ends,
        );
    }
    walk(
        slot,
        items,
        kinds,
        line,
        first,
        end,
        state,
        out,
        marks,
        &mut [],
        ends,
    )
}

// The items of a slot's pattern, behind those of the calls before it.
fn items_of(slot: &[u8]) -> &[u8]
    requires { SomeSlot slot.now }
    ensures { ItemsOf slot.now result.now }
{
    let pattern = HEADER_BYTES + two_at(slot, BEFORE_AT);
    let replacement = pattern + two_at(slot, PATTERN_AT);
    &slot[pattern..replacement]
}
