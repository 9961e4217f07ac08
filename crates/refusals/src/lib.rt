// What can be refused at work, and what an action comes to.
#![tactic(auto)]

ghost use Rattle.std.specs.Prelude.{◌≡◌};
ghost use Rattle.macros.specs.Refusals.{work_number};
ghost use Rattle.refusals.specs.Faults.{refusal_of};

// 32 to 35.
#[derive(Clone, Copy, Debug, PartialEq, Eq)]
pub enum WorkFault {
    NewLineTooLong,
    TagTooLong,
    PointerTooHigh,
    CounterTooHigh,
}

// A refusal, with the bytes that the new line has by then. What goes well has the bytes that it has then.
#[derive(Clone, Copy, Debug, PartialEq, Eq)]
pub struct WorkError {
    pub fault: WorkFault,
    pub size: usize,
}

impl From<WorkFault> for u32 {
    ghost from_gives = { λ f n. n ≡ work_number (refusal_of f) };

    #[tactic(auto, unfolding(macros::specs::Refusals::work_number))]
    fn from(f: WorkFault) -> u32 {
        match f {
            WorkFault::NewLineTooLong => 32,
            WorkFault::TagTooLong => 33,
            WorkFault::PointerTooHigh => 34,
            WorkFault::CounterTooHigh => 35,
        }
    }
}
