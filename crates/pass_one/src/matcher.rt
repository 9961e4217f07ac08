// The matcher (01, part 3): the stack grows with the pattern's elements and, for each closure, with the halvings of its copies;
// each closure is tried at each place once.
ghost use Rattle.std.specs.Prelude.{◌≡◌};
ghost use Rattle.pass_one.specs.Finding.{LastPlace, counted_of};
ghost use Rattle.pass_one.specs.Trying.{Trying, Counting, Repeating, Tried, Most, Copied};
ghost use Rattle.pass_unit.specs.Pieces.{again};

use form_element::{Closure, Element, element_at};
use form_items::codes::START;
use pass_marks::{is_marked, set_mark};
use pass_unit::{behind, copy_at, lead_at, width_of};

// Whether further copies, w bytes wide, can follow.
fn may_repeat(element: Element, w: usize) -> bool
    ensures { result ≡ again element.closure w }
{
    match element.closure {
        Closure::Once => false,
        Closure::OneOrMore | Closure::ZeroOrMore => 0 < w,
    }
}

// How many copies of an element's unit, w bytes wide, stand in a row from q on. Places with a mark end the row: there is no division from there.
fn most_copies(
    items: &[u8],
    kinds: &[u8; 256],
    state: &[u8],
    line: &[u8],
    at: usize,
    element: Element,
    w: usize,
    q: usize,
    marks: &[u8],
) -> usize
    requires { Counting items.now kinds.now state.now line.now at element.unit w q marks.now }
    ensures { Most items.now state.now line.now at w q result }
{
    let mut n: usize = 0;
    let mut r = q;
    while copy_at(items, kinds, state, line, at, element, r) {
        r += w;
        if is_marked(marks, at, r) {
            return n;
        }
        n += 1;
    }
    n
}

// Where a match of the pieces whose items begin at `at` ends, from place p on. `ends` then holds the place where each of them ends.
#[cycle(closure_elements)]
pub(crate) fn elements(
    items: &[u8],
    kinds: &[u8; 256],
    state: &[u8],
    line: &[u8],
    at: usize,
    p: usize,
    marks: &mut [u8],
    ends: &mut [u16],
) -> Option<usize>
    requires { Trying items.now kinds.now state.now line.now at p marks.old ends.old }
    ensures { Tried items.now state.now line.now at p marks.old marks.new ends.new result }
{
    if at == items.len() {
        return Some(p);
    }
    let e = element_at(items, at);
    let w = width_of(state, e);
    let q = lead_at(items, kinds, state, line, at, e, w, p)?;
    let next = behind(items, at, e);
    if may_repeat(e, w) {
        if is_marked(marks, at, q) {
            return None;
        }
        let most = most_copies(items, kinds, state, line, at, e, w, q, marks);
        return closure(items, kinds, state, line, at, next, w, q, most, marks, ends);
    }
    let end = elements(items, kinds, state, line, next, q, marks, ends)?;
    ends[at] = q as u16;
    Some(end)
}

// The element at `at`, with up to `most` copies from q on, each w bytes wide:
// the pieces behind it after most copies, then after one copy less, and so on.
// Of several numbers of copies the upper half is tried first and then the lower half, so the untried repeats fall
// with each call, and no more than 12 calls stand in each other.
#[cycle(closure_elements)]
fn closure(
    items: &[u8],
    kinds: &[u8; 256],
    state: &[u8],
    line: &[u8],
    at: usize,
    next: usize,
    w: usize,
    q: usize,
    most: usize,
    marks: &mut [u8],
    ends: &mut [u16],
) -> Option<usize>
    requires { Repeating items.now kinds.now state.now line.now at next w q most marks.old ends.old }
    ensures { Copied items.now state.now line.now at q marks.old marks.new ends.new result }
{
    if most == 0 {
        if let Some(end) = elements(items, kinds, state, line, next, q, marks, ends) {
            ends[at] = q as u16;
            return Some(end);
        }
        set_mark(marks, at, q);
        return None;
    }
    let high = most / 2;
    let more = most - high;
    let low = more - 1;
    let r = q + more * w;
    let found = closure(items, kinds, state, line, at, next, w, r, high, marks, ends);
    if found.is_some() {
        return found;
    }
    closure(items, kinds, state, line, at, next, w, q, low, marks, ends)
}

// The last place where a match can begin: a pattern that begins with `^` has place 0 alone.
pub(crate) fn last_place(items: &[u8], line: &[u8]) -> usize
    ensures { LastPlace items.now line.now result }
{
    if 1 < items.len() && items[0] == START {
        return 0;
    }
    line.len()
}

// "An empty match at the end of the match just made in the same pass does not count."
pub(crate) fn counted(found: Option<usize>, last: usize, p: usize) -> Option<usize>
    ensures { result ≡ counted_of found last p }
{
    found.filter(|end| *end != p || last != p)
}
