// The macros of a table, from their slots.
ghost use Rattle.std.specs.Prelude.{◌≡◌, ◌∷◌, ◌≤◌, length};
ghost use Rattle.write_put.specs.Puts.{Puts};
ghost use Rattle.write_actions.specs.Items.{actions_text, Whole};
ghost use Rattle.write_file.specs.Slots.{before_end, pattern_end, symbol_byte, before_text, left_text, right_text, slot_text};
ghost use Rattle.write_file.specs.Slots.{limit_of, fault_of, answer_of, capped, Parts, Adds, Lists};
ghost use Rattle.write_file.specs.Contract.{SomeTable, SomeMacro, SoFar, WritesOn};

use crate::{WriteError, WritingFault};
use form_items::layout::{BEFORE_AT, COMMANDS_AT, HEADER_BYTES, PATTERN_AT, REPLACEMENT_AT};
use form_items::two_at;
use write_actions::{count_actions, put_actions};
use write_pattern::{count_pattern, put_pattern};
use write_put::{Short, put};

fn symbol(code: u8) -> u8
    ensures { result ≡ symbol_byte code }
{
    if code == 1 {
        return b'<';
    }
    b'='
}

// Where the calls before the pattern end.
fn before_end(slot: &[u8]) -> usize
    requires { Parts slot.now }
    ensures { result ≡ before_end slot.now }
{
    HEADER_BYTES + two_at(slot, BEFORE_AT)
}

// Where the pattern ends.
fn pattern_end(slot: &[u8]) -> usize
    requires { Parts slot.now }
    ensures { result ≡ pattern_end slot.now }
{
    before_end(slot) + two_at(slot, PATTERN_AT)
}

// The calls before the pattern.
fn put_before(file: &mut [u8], n: usize, slot: &[u8]) -> usize
    requires { (length file.old ≤ 32768) × Parts slot.now }
    ensures { Puts n (before_text slot.now) file.old file.new result }
{
    let e = before_end(slot);
    put_actions(file, n, &slot[HEADER_BYTES..e])
}

// A quote and the actions behind it.
pub fn put_quoted(file: &mut [u8], start: usize, items: &[u8]) -> usize
    requires { (length file.old ≤ 32768) × Whole items.now }
    ensures { Puts start (39 ∷ actions_text 0 items.now) file.old file.new result }
{
    let n = put(file, start, Short::One(b'\''));
    put_actions(file, n, items)
}

// The pattern in quotes, and the symbol.
fn put_left(file: &mut [u8], n: usize, slot: &[u8]) -> usize
    requires { (length file.old ≤ 32768) × Parts slot.now }
    ensures { Puts n (left_text slot.now) file.old file.new result }
{
    let a = before_end(slot);
    let e = pattern_end(slot);
    let sign = symbol(slot[0]);
    let m = put_pattern(file, n, &slot[a..e]);
    put(file, m, Short::Two(b'\'', sign))
}

// The replacement in quotes, the commands and `;`.
fn put_right(file: &mut [u8], n: usize, slot: &[u8]) -> usize
    requires { (length file.old ≤ 32768) × Parts slot.now }
    ensures { Puts n (right_text slot.now) file.old file.new result }
{
    let p = pattern_end(slot);
    let r = p + two_at(slot, REPLACEMENT_AT);
    let e = r + two_at(slot, COMMANDS_AT);
    let a = put_quoted(file, n, &slot[p..r]);
    let b = put_quoted(file, a, &slot[r..e]);
    put(file, b, Short::One(b';'))
}

// The macro of a slot, from its first call or quote to its `;`.
fn put_macro(file: &mut [u8], n: usize, slot: &[u8]) -> usize
    requires { (length file.old ≤ 32768) × Parts slot.now }
    ensures { Puts n (slot_text slot.now) file.old file.new result }
{
    let a = put_before(file, n, slot);
    let b = put_left(file, a, slot);
    put_right(file, b, slot)
}

// The limit of a macro that begins at `start`: its 513th byte or the file's 32,769th.
fn limit_of(start: usize) -> usize
    requires { start ≤ 32768 }
    ensures { result ≡ limit_of start }
{
    (start + 512).min(32768)
}

// Which of the two it is: 18 if both.
fn fault_of(start: usize) -> WritingFault
    ensures { result ≡ fault_of start }
{
    if start <= 32256 {
        return WritingFault::MacroTooLong;
    }
    WritingFault::FileTooLong
}

// What writing comes to with a macro that ends at n, and its line feed at `end`.
fn answer_of(start: usize, limit: usize, n: usize, end: usize) -> Result<usize, WriteError>
    ensures { result ≡ answer_of start limit n end }
{
    if limit < n {
        return Err(WriteError {
            fault: fault_of(start),
            place: limit,
        });
    }
    if 32768 < end {
        return Err(WriteError {
            fault: WritingFault::FileTooLong,
            place: 32768,
        });
    }
    Ok(end)
}

// One macro with its line feed; a macro that does not fit is refused, wherever its line feed goes.
fn write_macro(file: &mut [u8], start: usize, slot: &[u8]) -> Result<usize, WriteError>
    requires { (start ≤ 32768) × (length file.old ≡ 32768) × Parts slot.now }
    ensures { Adds file.old start (slot_text slot.now) file.new result }
{
    let limit = limit_of(start);
    let n = put_macro(&mut file[..limit], start, slot);
    let end = put(file, n, Short::One(b'\n'));
    answer_of(start, limit, n, end)
}

// The macros up to the first unused slot, oldest first.
pub(crate) fn write_slots(file: &mut [u8], table: &[u8]) -> Result<usize, WriteError>
    requires { (length file.old ≡ 32768) × SomeTable table.now }
    ensures { Lists table.now file.new result }
{
    let mut n = 0;
    for k in 0..96 {
        let a = 1024 * k;
        if table[a] == 0 {
            return Ok(n);
        }
        n = write_macro(file, n, &table[a..a + 1024])?;
    }
    Ok(n)
}

// ONE MACRO MORE, without its bytes

// The bytes of a slot's macro; 513 stand for any more than 512. Six are its quotes, symbol and `;`.
fn written_size(slot: &[u8]) -> usize
    requires { Parts slot.now }
    ensures { result ≡ capped (length (slot_text slot.now)) }
{
    let b = before_end(slot);
    let p = pattern_end(slot);
    let r = p + two_at(slot, REPLACEMENT_AT);
    let e = r + two_at(slot, COMMANDS_AT);
    let called = count_actions(6, &slot[HEADER_BYTES..b]);
    let matched = count_pattern(called, &slot[b..p]);
    let replaced = count_actions(matched, &slot[p..r]);
    let n = count_actions(replaced, &slot[r..e]);
    n.min(513)
}

// What writing out comes to with a slot's macro behind those that came to `so`.
pub fn write_on(so: Result<usize, WriteError>, slot: &[u8]) -> Result<usize, WriteError>
    requires { SoFar so × SomeMacro slot.now }
    ensures { WritesOn so slot.now result }
{
    let start = so?;
    let size = written_size(slot);
    answer_of(start, limit_of(start), start + size, start + size + 1)
}
