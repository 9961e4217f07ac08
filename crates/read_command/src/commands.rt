// The calls before a pattern, and the commands of a macro.
ghost use Rattle.std.specs.Prelude.{◌≡◌, ◌≤◌, ◌*◌, ◌+◌, ◌-◌, length};
ghost use Rattle.macros.specs.Macro.{mark_byte};
ghost use Rattle.read_scan.specs.Scan.{Reached, Here};
ghost use Rattle.read_call.specs.Call.{site_is, mark_of};
ghost use Rattle.read_command.specs.Commands.{CommandFrom, ListedFrom, CommandsRead, BeforeFrom, BeforeRead, last_byte, stray_byte, site_by};

use read_action::actions::is_mark;
use read_call::Site;
use read_call::calls::call;
use read_ends::or_zeros;
use read_scan::scan::next_byte;
use read_scan::{FileFault, ReadError};

// The byte that ends them: the pattern's quote, or the macro's `;`.
fn last_byte(before: bool) -> u8
    ensures { result ≡ last_byte before }
{
    if before { b'\'' } else { b';' }
}

// The one of both that is out of turn: 12.
fn stray_byte(before: bool) -> u8
    ensures { result ≡ stray_byte before }
{
    if before { b';' } else { b'\'' }
}

// Where they stand.
fn site_by(before: bool) -> Site
    ensures { site_is result ≡ site_by before }
{
    if before {
        Site::BeforePattern
    } else {
        Site::Command
    }
}

// The `&` or, if counter, the `#` at a place, outside quotes: other text, if no `(` follows.
fn marked_command(
    s: &[u8],
    out: &mut [u8],
    a: usize,
    at: usize,
    n: usize,
    counter: bool,
    before: bool,
    tags: usize,
) -> Result<(usize, usize), ReadError>
    requires { Here s.now a at (mark_byte (mark_of counter)) × (n + 2 * (a + 513 - at) ≤ length out.old) × (tags ≤ 99) }
    ensures { CommandFrom s.now a at out.old out.new n before tags result }
{
    let (b, q) = next_byte(s, a, at + 1)?;
    if b == b'(' {
        return call(s, out, a, q + 1, n, counter, site_by(before), tags);
    }
    Ok((q, n))
}

// A command or a byte of other text, from its first byte b on, which does not end them.
fn command(
    s: &[u8],
    out: &mut [u8],
    a: usize,
    at: usize,
    b: u8,
    n: usize,
    before: bool,
    tags: usize,
) -> Result<(usize, usize), ReadError>
    requires { Here s.now a at b × (b ≡ last_byte before → ⊥) × (n + 2 * (a + 513 - at) ≤ length out.old) × (tags ≤ 99) }
    ensures { CommandFrom s.now a at out.old out.new n before tags result }
{
    if b == stray_byte(before) {
        return Err(FileFault::Incomplete.at(at));
    }
    if is_mark(b) {
        return marked_command(s, out, a, at, n, b == b'#', before, tags);
    }
    Ok((at + 1, n))
}

// Commands up to the byte that ends them, whose place it gives; their items from `start` on.
fn commands_items(
    s: &[u8],
    out: &mut [u8],
    a: usize,
    first: usize,
    start: usize,
    before: bool,
    tags: usize,
) -> Result<(usize, usize), ReadError>
    requires { Reached s.now a first × (start + 2 * (a + 513 - first) ≤ length out.old) × (tags ≤ 99) }
    ensures { ListedFrom s.now a first out.old out.new start before tags result }
{
    let last = last_byte(before);
    let mut at = first;
    let mut n = start;
    loop {
        let (b, q) = next_byte(s, a, at)?;
        if b == last {
            return Ok((q, n));
        }
        (at, n) = command(s, out, a, q, b, n, before, tags)?;
    }
}

// The commands, from behind the replacement to the `;`, whose place it gives; a refusal leaves zeros in the lent bytes.
pub fn commands(
    s: &[u8],
    out: &mut [u8],
    a: usize,
    first: usize,
    start: usize,
    tags: usize,
) -> Result<(usize, usize), ReadError>
    requires { Reached s.now a first × (start + 2 * (a + 513 - first) ≤ length out.old) × (tags ≤ 99) }
    ensures { CommandsRead s.now a first out.old out.new start tags result }
{
    let read = commands_items(s, out, a, first, start, false, tags);
    or_zeros(out, read)
}

// The calls before a pattern, from behind the `&(` or, if counter, the `#(` of the first to the pattern's quote, whose place it gives.
fn before_items(
    s: &[u8],
    out: &mut [u8],
    a: usize,
    first: usize,
    start: usize,
    counter: bool,
) -> Result<(usize, usize), ReadError>
    requires { Reached s.now a first × (start + 2 * (a + 513 - first) ≤ length out.old) }
    ensures { BeforeFrom s.now a first out.old out.new start counter result }
{
    let (z, e) = call(s, out, a, first, start, counter, Site::BeforePattern, 0)?;
    commands_items(s, out, a, z, e, true, 0)
}

// Reads the calls before a pattern; a refusal leaves zeros in the lent bytes.
pub fn calls_before(
    s: &[u8],
    out: &mut [u8],
    a: usize,
    first: usize,
    start: usize,
    counter: bool,
) -> Result<(usize, usize), ReadError>
    requires { Reached s.now a first × (start + 2 * (a + 513 - first) ≤ length out.old) }
    ensures { BeforeRead s.now a first out.old out.new start counter result }
{
    let read = before_items(s, out, a, first, start, counter);
    or_zeros(out, read)
}
