// What a call answers, in numbers.
#![tactic(auto)]

ghost use Rattle.std.specs.Prelude.{◌≡◌, ◌≤◌};
ghost use Rattle.macros.specs.Bounds.{most_file_bytes, most_line_bytes, most_budget};
ghost use Rattle.macros.specs.Refusals.{number, place};
ghost use Rattle.line_answer.specs.Fed.{refusal_of, first_why, control_why, work_why, passes_refused};
ghost use Rattle.line_answer.specs.Replies.{line_reply, told, Small};

use line_control::ControlError;
use line_stand::{PassesError, Why as WorkWhy};
use line_test::Why as FirstWhy;
use read_scan::ReadError;
use refusals::WorkFault;

// Why a line is refused.
#[derive(Clone, Copy, Debug, PartialEq, Eq)]
pub enum Why {
    BudgetTooLarge,
    LineTooLong,
    BadByte,
    BadControl,
    InMacro(ReadError),
    BudgetUsedUp,
    AtWork(WorkFault),
    TraceTooLong,
}

// A refused line, with the passes begun.
#[derive(Clone, Copy, Debug, PartialEq, Eq)]
pub struct LineError {
    pub why: Why,
    pub passes: usize,
}

// A line that is taken, with the passes begun; one that goes out has its length too.
#[derive(Clone, Copy, Debug, PartialEq, Eq)]
pub enum Fed {
    Out(usize, usize),
    Withheld(usize),
    Control(usize),
}

// What a call answers: 0 or a refusal's number, its place, the passes begun, a line's kind, and a length.
#[repr(C)]
#[derive(Clone, Copy, Debug, PartialEq, Eq)]
pub struct Answer {
    pub number: u32,
    pub place: u32,
    pub passes: u32,
    pub kind: u32,
    pub length: u32,
}

// 4, 21 or 22: no pass was begun.
impl From<FirstWhy> for LineError {
    ghost from_gives = { λ w e. e ≡ record { why = first_why w; passes = 0 } };

    fn from(w: FirstWhy) -> LineError {
        let why = match w {
            FirstWhy::BudgetTooLarge => Why::BudgetTooLarge,
            FirstWhy::LineTooLong => Why::LineTooLong,
            FirstWhy::BadByte => Why::BadByte,
        };
        LineError { why, passes: 0 }
    }
}

// 23, or a fault in a control line's macro.
impl From<ControlError> for Why {
    ghost from_gives = { λ w v. v ≡ control_why w };

    fn from(w: ControlError) -> Why {
        match w {
            ControlError::BadControl => Why::BadControl,
            ControlError::InMacro(e) => Why::InMacro(e),
        }
    }
}

// 31 to 36.
impl From<WorkWhy> for Why {
    ghost from_gives = { λ w v. v ≡ work_why w };

    fn from(w: WorkWhy) -> Why {
        match w {
            WorkWhy::BudgetUsedUp => Why::BudgetUsedUp,
            WorkWhy::AtWork(f) => Why::AtWork(f),
            WorkWhy::TraceTooLong => Why::TraceTooLong,
        }
    }
}

// The same, with the passes begun.
impl From<PassesError> for LineError {
    ghost from_gives = { λ e r. r ≡ passes_refused e };

    fn from(e: PassesError) -> LineError {
        LineError {
            why: Why::from(e.why),
            passes: e.begun,
        }
    }
}

// The number of a line's refusal: 4, 10 to 23, 31 to 36.
impl From<Why> for u32 {
    ghost from_gives = { λ w n. n ≡ number (refusal_of w) };

    #[tactic(auto, unfolding(macros::specs::Refusals::number, macros::specs::Refusals::host_number, macros::specs::Refusals::line_number, macros::specs::Refusals::work_number))]
    fn from(w: Why) -> u32 {
        match w {
            Why::BudgetTooLarge => 4,
            Why::LineTooLong => 21,
            Why::BadByte => 22,
            Why::BadControl => 23,
            Why::InMacro(e) => u32::from(e.fault),
            Why::BudgetUsedUp => 31,
            Why::AtWork(f) => u32::from(f),
            Why::TraceTooLong => 36,
        }
    }
}

// A fault in a macro has a place.
#[tactic(auto, unfolding(macros::specs::Refusals::place))]
fn place_of(w: Why) -> usize
    ensures { result ≡ place (refusal_of w) }
{
    match w {
        Why::InMacro(e) => e.place,
        _ => 0,
    }
}

// The answer to a line, of its five numbers.
fn line_reply(number: u32, place: usize, passes: usize, kind: u32, size: usize) -> Answer
    requires { (place ≤ most_file_bytes) × (passes ≤ most_budget) × (size ≤ most_line_bytes) }
    ensures { result ≡ line_reply number place passes kind size }
{
    Answer {
        number,
        place: place as u32,
        passes: passes as u32,
        kind,
        length: size as u32,
    }
}

// Kind 1 goes out, 2 is withheld, 3 was a control line, and a refusal has kind 0. Only a line that goes out has a length.
#[tactic(auto, unfolding(crate::specs::Replies::told, lines::specs::Feeding::number_of, lines::specs::Feeding::place_of, lines::specs::Feeding::kind_number))]
pub fn answer_of(fed: Result<Fed, LineError>) -> Answer
    requires { Small fed }
    ensures { result ≡ told fed }
{
    match fed {
        Ok(Fed::Out(passes, size)) => line_reply(0, 0, passes, 1, size),
        Ok(Fed::Withheld(passes)) => line_reply(0, 0, passes, 2, 0),
        Ok(Fed::Control(passes)) => line_reply(0, 0, passes, 3, 0),
        Err(e) => line_reply(u32::from(e.why), place_of(e.why), e.passes, 0, 0),
    }
}
