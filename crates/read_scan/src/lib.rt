// What every part of the macro-file reader is made of: the next byte of a macro.
// Each answer is defined in specs/, from the file's bytes alone; there also stands what it says of the machine of the definitions.
#![tactic(auto)]

pub mod scan;

ghost use Rattle.std.specs.Prelude.{◌≡◌};
ghost use Rattle.macros.specs.Refusals.{file_number};
ghost use Rattle.read_scan.specs.Scan.{fault_of};

// The bytes of a macro from where it begins, at its first quote or at the sign of its first call, to its `;`, both counted.
pub const MOST_MACRO_BYTES: usize = 512;

// A refusal of the table writer, in the order of their numbers: 10 to 19.
#[derive(Clone, Copy, Debug, PartialEq, Eq)]
pub enum FileFault {
    FileTooLong,
    ZeroByte,
    Incomplete,
    BadClass,
    NoUnit,
    BadBrace,
    BadCall,
    NoElement,
    MacroTooLong,
    TooManyMacros,
}

// A refusal with its place.
#[derive(Clone, Copy, Debug, PartialEq, Eq)]
pub struct ReadError {
    pub fault: FileFault,
    pub place: usize,
}

impl FileFault {
    // The refusal at a place.
    pub fn at(self, place: usize) -> ReadError
        ensures { result ≡ record { fault = self; place = place } }
    {
        ReadError { fault: self, place }
    }
}

// A refusal's number, 10 to 19.
impl From<FileFault> for u32 {
    ghost from_gives = { λ f n. n ≡ file_number (fault_of f) };

    #[tactic(auto, unfolding(macros::specs::Refusals::file_number))]
    fn from(f: FileFault) -> u32 {
        match f {
            FileFault::FileTooLong => 10,
            FileFault::ZeroByte => 11,
            FileFault::Incomplete => 12,
            FileFault::BadClass => 13,
            FileFault::NoUnit => 14,
            FileFault::BadBrace => 15,
            FileFault::BadCall => 16,
            FileFault::NoElement => 17,
            FileFault::MacroTooLong => 18,
            FileFault::TooManyMacros => 19,
        }
    }
}
