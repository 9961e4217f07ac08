// Writing out a table.
ghost use Rattle.std.specs.Prelude.{◌≡◌};
ghost use Rattle.m7.specs.Contract.{Writes};

use crate::answers::{refusal, taken};
use crate::{FILE_BYTES, TABLE_BYTES};
use line_answer::Answer;

// Writes out a table. The length is the file's, zeros stand behind it; a refusal leaves the memory as it was.
pub fn m7_write(table: &[u8], file: &mut [u8]) -> Answer
    ensures { Writes table.now file.old result file.new }
{
    if table.len() != TABLE_BYTES {
        return refusal(3, 0);
    }
    if file.len() != FILE_BYTES {
        return refusal(3, 0);
    }
    if !check_table::is_table(table) {
        return refusal(1, 0);
    }
    let writing = write_file::write_table(table, file);
    match writing {
        Ok(size) => taken(size),
        Err(e) => refusal(u32::from(e.fault), e.place),
    }
}
