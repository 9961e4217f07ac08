// Reading a macro file past its faults (02, N11).
ghost use Rattle.std.specs.Prelude.{◌≡◌, length, replicate};
ghost use Rattle.form_table.specs.Form.{table_bytes};
ghost use Rattle.form_faults.specs.Form.{faults_bytes};
ghost use Rattle.m7.specs.Recovering.{Returned, recovers};

use crate::answers::{refusal, taken};
use crate::{FAULTS_BYTES, TABLE_BYTES};
use line_answer::Answer;
use read_past::mend::read_past;

// Reads a macro file past its faults, whatever the memories held: the table of the macros kept, and the list of the faults. The length is
// the number of macros kept; a refusal leaves the memories as they were.
pub fn m7_recover(file: &[u8], table: &mut [u8], faults: &mut [u8]) -> Answer
    ensures { Returned (recovers file.now (record { table = table.old; faults = faults.old })) result (record { table = table.new; faults = faults.new }) }
{
    if table.len() != TABLE_BYTES {
        return refusal(3, 0);
    }
    if faults.len() != FAULTS_BYTES {
        return refusal(3, 0);
    }
    let mut made = [0u8; 98304];
    let mut listed = [0u8; 2052];
    recover_new(file, &mut made, &mut listed, table, faults)
}

// Reads a macro file past its faults into memories of zeros, and copies what that makes.
fn recover_new(
    file: &[u8],
    made: &mut [u8],
    listed: &mut [u8],
    table: &mut [u8],
    faults: &mut [u8],
) -> Answer
    requires { (made.old ≡ replicate table_bytes 0) × (listed.old ≡ replicate faults_bytes 0) × (length table.old ≡ table_bytes) × (length faults.old ≡ faults_bytes) }
    ensures { Returned (recovers file.now (record { table = table.old; faults = faults.old })) result (record { table = table.new; faults = faults.new }) }
{
    match read_past(file, made, listed) {
        Ok(n) => {
            table.copy_from_slice(made);
            faults.copy_from_slice(listed);
            taken(n)
        }
        Err(e) => refusal(e.number, e.place),
    }
}
