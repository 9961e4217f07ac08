// Reading a macro file.
ghost use Rattle.std.specs.Prelude.{◌≡◌, length, replicate};
ghost use Rattle.form_table.specs.Form.{table_bytes};
ghost use Rattle.m7.specs.Contract.{Gives, reads};

use crate::TABLE_BYTES;
use crate::answers::{refusal, taken};
use line_answer::Answer;
use read_file::file::read_onto;

// Reads a macro file as a new table, whatever the memory held. The length is the number of macros; a refusal leaves the memory as it was.
pub fn m7_read(file: &[u8], table: &mut [u8]) -> Answer
    ensures { Gives (reads file.now table.old) result table.new }
{
    if table.len() != TABLE_BYTES {
        return refusal(3, 0);
    }
    let mut made = [0u8; 98304];
    read_new(file, &mut made, table)
}

// Reads a macro file onto the zero table, and copies what that makes.
fn read_new(file: &[u8], made: &mut [u8], table: &mut [u8]) -> Answer
    requires { (made.old ≡ replicate table_bytes 0) × (length table.old ≡ table_bytes) }
    ensures { Gives (reads file.now table.old) result table.new }
{
    match read_onto(file, made, 0) {
        Ok(n) => {
            table.copy_from_slice(made);
            taken(n)
        }
        Err(e) => refusal(u32::from(e.fault), e.place),
    }
}
