// Lists the faults of a macro file (02, N11). What each answer says of the definitions stands in specs/.
#![tactic(auto)]

ghost use Rattle.std.specs.Prelude.{◌≡◌, ◌==◌, ◌≤◌, ◌<◌, length, position};
ghost use Rattle.macros.specs.Bounds.{most_file_bytes};
ghost use Rattle.macros.specs.Macro.{within};
ghost use Rattle.faults.specs.Refusal.{most_faults};
ghost use Rattle.form_faults.specs.Form.{faults_bytes};
ghost use Rattle.read_fault.specs.Noting.{behind_or_none, past_error, Lists, Notes};

use form_bytes::put_number;
use read_scan::ReadError;

// The faults that are listed, and the number of one more.
const MOST_FAULTS: usize = 256;

const TOO_MANY_FAULTS: u32 = 61;

// The bytes of a number, and of a fault: its number and its place.
const NUMBER_BYTES: usize = 4;

const FAULT_BYTES: usize = 8;

// A refusal of a file that is read past its faults: its number and its place.
#[derive(Clone, Copy, Debug, PartialEq, Eq)]
pub struct PastError {
    pub number: u32,
    pub place: usize,
}

impl From<ReadError> for PastError {
    ghost from_gives = { λ e p. p ≡ past_error e };

    fn from(e: ReadError) -> PastError {
        PastError {
            number: u32::from(e.fault),
            place: e.place,
        }
    }
}

// How far reading is: at a place, behind so many macros kept and so many faults listed.
#[derive(Clone, Copy, Debug, PartialEq, Eq)]
pub struct Progress {
    pub at: usize,
    pub macros: usize,
    pub faults: usize,
}

// The bytes before the first `;`.
fn before_semicolon(s: &[u8]) -> Option<usize>
    ensures { result ≡ position (λ b. b == 59) s.now }
{
    s.iter().position(|b| *b == b';')
}

// The place behind the first `;` at or after q, wherever it stands.
fn behind(s: &[u8], q: usize) -> Option<usize>
    requires { q ≤ length s.now }
    ensures { result ≡ behind_or_none s.now q }
{
    let k = before_semicolon(&s[q..])?;
    Some(q + k + 1)
}

// Whether a refusal's number is that of a fault.
fn is_fault(number: u32) -> bool
    ensures { result ≡ within 12 18 number }
{
    (12..=18).contains(&number)
}

// Lists a fault behind k others: their count, and its number and place.
fn put_fault(faults: &mut [u8], k: usize, number: u32, q: usize)
    requires { (length faults.old ≡ faults_bytes) × (k < most_faults) × (q ≤ most_file_bytes) }
    ensures { Lists faults.old faults.new k number q }
{
    let at = NUMBER_BYTES + FAULT_BYTES * k;
    put_number(faults, at, number);
    put_number(faults, at + NUMBER_BYTES, q as u32);
    put_number(faults, 0, (k + 1) as u32);
}

// A refusal at q: a fault is listed, unless it is one too many, and reading goes on if a `;` follows.
pub fn note(
    s: &[u8],
    faults: &mut [u8],
    number: u32,
    q: usize,
    so_far: Progress,
) -> Result<Option<Progress>, PastError>
    requires { (length faults.old ≡ faults_bytes) × (q ≤ length s.now) × (length s.now ≤ most_file_bytes) }
    ensures { Notes s.now faults.old faults.new number q so_far.macros so_far.faults result }
{
    if !is_fault(number) {
        return Err(PastError { number, place: q });
    }
    if MOST_FAULTS <= so_far.faults {
        return Err(PastError {
            number: TOO_MANY_FAULTS,
            place: 0,
        });
    }
    put_fault(faults, so_far.faults, number, q);
    let next = behind(s, q);
    Ok(next.map(|at| Progress {
        at,
        macros: so_far.macros,
        faults: so_far.faults + 1,
    }))
}
