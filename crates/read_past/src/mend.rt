// Reading from one fault to the next, over the reader's one-macro step.
ghost use Rattle.std.specs.Prelude.{◌≡◌, ◌≤◌, length, replicate};
ghost use Rattle.macros.specs.Bounds.{most_file_bytes};
ghost use Rattle.form_table.specs.Form.{table_bytes};
ghost use Rattle.form_faults.specs.Form.{faults_bytes};
ghost use Rattle.read_past.specs.Past.{Standing, Moved, Answered, ReadsPast};

use crate::{FAULTS_BYTES, SLOT_BYTES, TABLE_BYTES};
use form_items::clear;
use read_fault::{PastError, Progress, note};
use read_file::file::next_slot;
use read_start::start::whole_file;

// What comes next: a macro is stored, or a fault listed, and reading goes on; or it is over.
fn one_more(
    file: &[u8],
    table: &mut [u8],
    faults: &mut [u8],
    so_far: Progress,
) -> Result<Option<Progress>, PastError>
    requires { (length file.now ≤ most_file_bytes) × Standing file.now so_far.at so_far.macros so_far.faults table.old faults.old }
    ensures { Moved file.now so_far.at so_far.macros table.new faults.new result }
{
    let n = so_far.macros;
    match next_slot(file, table, n * SLOT_BYTES, so_far.at, n) {
        Ok(Some(at)) => Ok(Some(Progress {
            at,
            macros: n + 1,
            faults: so_far.faults,
        })),
        Ok(None) => Ok(None),
        Err(e) => note(file, faults, u32::from(e.fault), e.place, so_far),
    }
}

// Stores the macros of a file and lists its faults, in memories of zeros: how many macros are kept.
fn from_start(file: &[u8], table: &mut [u8], faults: &mut [u8]) -> Result<usize, PastError>
    requires { (length file.now ≤ most_file_bytes) × (table.old ≡ replicate table_bytes 0) × (faults.old ≡ replicate faults_bytes 0) }
    ensures { Answered file.now table.new faults.new result }
{
    let mut so_far = Progress {
        at: 0,
        macros: 0,
        faults: 0,
    };
    while let Some(next) = one_more(file, table, faults, so_far)? {
        so_far = next;
    }
    Ok(so_far.macros)
}

// Reads a file past its faults into memories of zeros: how many macros are kept, and the list of its faults. A refusal leaves zeros.
pub fn read_past(file: &[u8], table: &mut [u8], faults: &mut [u8]) -> Result<usize, PastError>
    requires { (table.old ≡ replicate table_bytes 0) × (faults.old ≡ replicate faults_bytes 0) }
    ensures { ReadsPast file.now table.new faults.new result }
{
    whole_file(file)?;
    let past = from_start(file, table, faults);
    if past.is_err() {
        clear(table, 0, TABLE_BYTES);
        clear(faults, 0, FAULTS_BYTES);
    }
    past
}
