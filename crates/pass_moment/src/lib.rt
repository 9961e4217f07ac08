// Moments of a pass (01, part 5): from place to place, and what it comes to.
#![tactic(auto)]

ghost use Rattle.std.specs.Prelude.{◌≤◌, ◌≡◌, length};
ghost use Rattle.macros.specs.Bounds.{most_line_bytes};
ghost use Rattle.pass_moment.specs.Moments.{Starts, moved_to, refused_at, after_of, passed_of, Copies, StepsOver};

use refusals::{WorkError, WorkFault};

// What a pass without a refusal comes to: whether there was an occurrence, and the bytes of the new line.
#[derive(Clone, Copy, Debug, PartialEq, Eq)]
pub struct Passed {
    pub occurred: bool,
    pub size: usize,
}

// A moment of a pass: the place to be tried next, the end of the match just made, the bytes of the new line,
// whether there was an occurrence, and what refused a step.
#[derive(Clone, Copy, Debug, PartialEq, Eq)]
pub struct Moment {
    pub place: usize,
    pub last: usize,
    pub size: usize,
    pub occurred: bool,
    pub refusal: Option<WorkFault>,
}

// Place p, before which there is no match: the bytes before it are copied. 1,055 lies past every place: there was no match yet.
pub fn start(line: &[u8], p: usize, out: &mut [u8]) -> Moment
    requires { (p ≤ length line.now) × (p ≤ length out.old) }
    ensures { Starts line.now out.old out.new p result }
{
    for i in 0..p {
        out[i] = line[i];
    }
    Moment {
        place: p,
        last: 1055,
        size: p,
        occurred: false,
        refusal: None,
    }
}

// After a refusal no place is left: 1,055 lies past every place.
fn refused(e: WorkError) -> Moment
    ensures { result ≡ refused_at e.fault e.size }
{
    Moment {
        place: 1055,
        last: 1055,
        size: e.size,
        occurred: true,
        refusal: Some(e.fault),
    }
}

// "A match .. goes on at its end".
pub fn after(made: Result<usize, WorkError>, end: usize) -> Moment
    ensures { result ≡ after_of made end }
{
    match made {
        Err(e) => refused(e),
        Ok(k) => Moment {
            place: end,
            last: end,
            size: k,
            occurred: true,
            refusal: None,
        },
    }
}

// The next place, with n bytes of the new line.
fn moved(at: Moment, n: usize) -> Moment
    requires { at.place ≤ most_line_bytes }
    ensures { result ≡ moved_to at n }
{
    Moment {
        place: at.place + 1,
        size: n,
        ..at
    }
}

// "the byte is copied"; 32: "the new line's 1,055th byte". At the line's length there is no byte.
fn copy_byte(line: &[u8], at: Moment, out: &mut [u8]) -> Moment
    requires { (at.place ≤ most_line_bytes) × (length out.old ≡ most_line_bytes) }
    ensures { Copies line.now out.old out.new at result }
{
    let p = at.place;
    let n = at.size;
    if line.len() <= p {
        return moved(at, n);
    }
    if 1054 <= n {
        return refused(WorkError {
            fault: WorkFault::NewLineTooLong,
            size: n,
        });
    }
    out[n] = line[p];
    moved(at, n + 1)
}

// Behind the tried place p: where the pass still stands there, without a match or with an empty one,
// the byte is copied and the pass goes on after it. Behind a longer match, or a refusal, nothing is copied.
pub fn step_over(line: &[u8], p: usize, at: Moment, out: &mut [u8]) -> Moment
    requires { (p ≤ most_line_bytes) × (length out.old ≡ most_line_bytes) }
    ensures { StepsOver line.now out.old out.new p at result }
{
    let end = at.place;
    if p < end {
        return at;
    }
    copy_byte(line, at, out)
}

// What the pass comes to, past the last place.
pub fn answer(at: Moment) -> Result<Passed, WorkError>
    ensures { result ≡ passed_of at }
{
    let Moment {
        occurred,
        size,
        refusal,
        ..
    } = at;
    match refusal {
        None => Ok(Passed { occurred, size }),
        Some(fault) => Err(WorkError { fault, size }),
    }
}
