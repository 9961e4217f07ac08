// Writing out (01, part 7): from a table in its byte form to the macro file.
#![tactic(auto)]

pub mod slots;

ghost use Rattle.std.specs.Prelude.{◌≡◌, length};
ghost use Rattle.macros.specs.Refusals.{file_number};
ghost use Rattle.write_file.specs.Contract.{SomeTable, WritesOut};
ghost use Rattle.write_file.specs.Slots.{refusal_of};

use slots::write_slots;

// Why a table has no macro file.
#[derive(Clone, Copy, Debug, PartialEq, Eq)]
pub enum WritingFault {
    MacroTooLong,
    FileTooLong,
}

impl From<WritingFault> for u32 {
    fn from(f: WritingFault) -> u32
        ensures { result ≡ file_number (refusal_of f) }
    {
        match f {
            WritingFault::MacroTooLong => 18,
            WritingFault::FileTooLong => 10,
        }
    }
}

// A refusal with its place.
#[derive(Clone, Copy, Debug, PartialEq, Eq)]
pub struct WriteError {
    pub fault: WritingFault,
    pub place: usize,
}

// Writes out an accepted table, and gives the file's length; a refusal leaves `out` as it was.
pub fn write_table(table: &[u8], out: &mut [u8]) -> Result<usize, WriteError>
    requires { (length out.old ≡ 32768) × SomeTable table.now }
    ensures { WritesOut table.now out.old out.new result }
{
    let mut file = [0u8; 32768];
    let n = write_slots(&mut file, table)?;
    out[..n].copy_from_slice(&file[..n]);
    out[n..].fill(0);
    Ok(n)
}
