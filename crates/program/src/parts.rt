// The macro file.
ghost use Rattle.std.specs.Prelude.{◌≡◌, ◌+◌, ◌≤◌, length, take, IfOk, IfSome};
ghost use Rattle.program.specs.Parts.{PartsRead, parts_of, said_number};
ghost use Rattle.program.specs.Held.{Ready};

use std::io::Read;
use std::rt::Files;
use std::str::from_utf8;
use std::{fs, io};

// Why there is no table: the file cannot be opened or read, or it is refused with this number.
#[derive(Clone, Copy, Debug, PartialEq, Eq)]
pub(crate) enum PartsError {
    Unread,
    Refused(u32),
}

// The number that is said: 0 for a file that cannot be opened or read.
impl From<PartsError> for u32 {
    ghost from_gives = { λ error n. n ≡ said_number error };

    #[tactic(auto, unfolding(crate::specs::Parts::said_number))]
    fn from(error: PartsError) -> u32 {
        match error {
            PartsError::Unread => 0,
            PartsError::Refused(number) => number,
        }
    }
}

// Reads the file as a table. One byte more than it may have is read, so that a longer one shows.
#[tactic(auto, unfolding(crate::specs::Parts::PartsRead, crate::specs::Parts::Refuses, crate::specs::Held::Ready))]
pub(crate) fn read_parts<F: Files>(
    files: &F,
    table: &mut [u8; 98304],
    name: &[u8],
) -> Result<(), PartsError>
    requires { length table.old ≡ 98304 }
    ensures parts_read { PartsRead table.old result table.new }
    ensures ready { Ready result table.new }
{
    let mut file: [u8; 32769] = [0; 32769];
    let Some(size) = find_file(files, &mut file, name) else {
        return Err(PartsError::Unread);
    };
    read_table(&file[..size], table)
}

// The table of a file's bytes.
fn read_table(file: &[u8], table: &mut [u8]) -> Result<(), PartsError>
    requires { (length file.now ≤ 32769) × (length table.old ≡ 98304) }
    ensures parts_read { PartsRead table.old result table.new }
    ensures ready { Ready result table.new }
{
    let answer = m7::read::m7_read(file, table);
    parts_of(answer.number)
}

// By the number that reading it as a table answers.
fn parts_of(number: u32) -> Result<(), PartsError>
    ensures { result ≡ parts_of number }
{
    if number < 1 {
        return Ok(());
    }
    Err(PartsError::Refused(number))
}

// Opens the file and reads it: how many bytes were read, unless that failed. Paths are UTF-8 text: a file with another name cannot be opened.
fn find_file<F: Files>(files: &F, file: &mut [u8], name: &[u8]) -> Option<usize>
    ensures { IfSome result (λ size. size ≤ length file.old) }
{
    let path = from_utf8(name).ok()?;
    let mut opened = fs::open(files, path).ok()?;
    read_file(&mut opened, file).ok()
}

// Reads to the file's end, or until the memory is full. A directory opens and cannot be read.
fn read_file<R: Read>(opened: &mut R, file: &mut [u8]) -> io::Result<usize>
    ensures { IfOk result (λ size. size ≤ length file.old) }
{
    let mut done = 0;
    while done < file.len() {
        let n = read_once(opened, file, done)?;
        if n < 1 {
            break;
        }
        done += n;
    }
    Ok(done)
}

// One read behind the bytes held, which stay as they were: how many bytes it gives.
fn read_once<R: Read>(opened: &mut R, file: &mut [u8], done: usize) -> io::Result<usize>
    requires { done ≤ length file.old }
    ensures size_in_bounds { IfOk result (λ size. done + size ≤ length file.old) }
    ensures file_unchanged { take done file.new ≡ take done file.old }
{
    opened.read(&mut file[done..])
}
