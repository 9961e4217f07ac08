// The macros of a file, each in its slot of a table.
ghost use Rattle.std.specs.Prelude.{◌≡◌, ◌≤◌, length};
ghost use Rattle.macros.specs.Bounds.{most_macros};
ghost use Rattle.form_table.specs.Form.{table_bytes};
ghost use Rattle.read_file.specs.File.{Room, NextSlot, AddsFrom, Lent, Onto};

use crate::slots::store;
use crate::{MOST_MACROS, SLOT_BYTES, Stopped};
use read_macro::read_macro;
use read_scan::{FileFault, ReadError};
use read_start::start::{next_start, whole_file};

// Stores the next macro from `at` on in the slot at `base`, behind n others: the place behind its `;`, or none at the file's end.
// The file's end and a refusal leave the lent bytes as they were.
pub fn next_slot(
    file: &[u8],
    table: &mut [u8],
    base: usize,
    at: usize,
    n: usize,
) -> Result<Option<usize>, ReadError>
    requires { (at ≤ length file.now) × Room n base table.old }
    ensures { NextSlot file.now at n base table.old table.new result }
{
    let Some((a, p)) = next_start(file, at)? else {
        return Ok(None);
    };
    if MOST_MACROS <= n {
        return Err(FileFault::TooManyMacros.at(a));
    }
    let mut scratch = [0u8; 1024];
    let built = read_macro(file, &mut scratch, a, p)?;
    store(table, base, &scratch, built.head);
    Ok(Some(built.place))
}

// Stores each macro of a file behind the table's: how many it then has, or by the refusal.
fn add_macros(file: &[u8], table: &mut [u8], count: usize) -> Result<usize, Stopped>
    requires { (length table.old ≡ table_bytes) × (count ≤ most_macros) }
    ensures { AddsFrom file.now count table.old table.new result }
{
    let mut at = 0;
    let mut n = count;
    loop {
        match next_slot(file, table, n * SLOT_BYTES, at, n) {
            Ok(Some(next)) => {
                n += 1;
                at = next;
            }
            Ok(None) => return Ok(n),
            Err(error) => return Err(Stopped { error, macros: n }),
        }
    }
}

// Reads a file onto a table of so many macros: how many it then has. A refusal leaves the table as it was.
pub fn read_onto(file: &[u8], table: &mut [u8], count: usize) -> Result<usize, ReadError>
    requires { Lent table.old count }
    ensures { Onto file.now count table.old table.new result }
{
    whole_file(file)?;
    match add_macros(file, table, count) {
        Ok(n) => Ok(n),
        Err(stopped) => {
            table[count * SLOT_BYTES..stopped.macros * SLOT_BYTES].fill(0);
            Err(stopped.error)
        }
    }
}
