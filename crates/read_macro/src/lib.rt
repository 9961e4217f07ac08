// Reads one macro from where it begins to its `;`. What each answer says of the machine of the definitions stands in specs/.
#![tactic(auto)]

ghost use Rattle.std.specs.Prelude.{◌≡◌, ◌≤◌, ◌<◌, ◌*◌, ◌+◌, ◌-◌, length};
ghost use Rattle.macros.specs.Bounds.{most_tags};
ghost use Rattle.form_table.specs.Form.{slot_bytes, symbol_code};
ghost use Rattle.read_scan.specs.Scan.{Reached};
ghost use Rattle.read_action.specs.Action.{symbol_of};
ghost use Rattle.read_macro.specs.OneMacro.{PrecededBy, MacroFrom, ReadsMacro, PartsFrom};

use read_action::actions::{find_replacement, replacement};
use read_command::commands::{calls_before, commands};
use read_pattern::pattern::whole;
use read_scan::{FileFault, MOST_MACRO_BYTES, ReadError};

// What a slot's first bytes say: the symbol's code, the tags, and the bytes of the four parts.
#[derive(Clone, Copy, Debug, PartialEq, Eq)]
pub struct Head {
    pub symbol: u8,
    pub tags: usize,
    pub before: usize,
    pub pattern: usize,
    pub replacement: usize,
    pub commands: usize,
}

// The place behind a macro's `;`, and its head.
#[derive(Clone, Copy, Debug, PartialEq, Eq)]
pub struct Built {
    pub place: usize,
    pub head: Head,
}

// The code of the symbol `=` or `<` in a slot.
#[tactic(auto, unfolding(form_table::specs::Form::symbol_code, read_action::specs::Action::symbol_of, macros::specs::Macro::pick))]
fn symbol_code(b: u8) -> u8
    ensures { result ≡ symbol_code (symbol_of b) }
{
    if b == b'=' { 2 } else { 1 }
}

// The replacement and the commands from `at` on, behind a pattern of so many tags, whose items stand from n up to i, and the symbol b.
fn parts(
    s: &[u8],
    out: &mut [u8],
    a: usize,
    at: usize,
    b: u8,
    n: usize,
    i: usize,
    tags: usize,
) -> Result<Built, ReadError>
    requires { Reached s.now a at × (i + 2 * (a + 513 - at) ≤ length out.old) × (tags ≤ most_tags) × (n ≤ i) }
    ensures { PartsFrom s.now a at out.old out.new b n i tags result }
{
    let (v, j) = replacement(s, out, a, at, i, tags)?;
    let (q, k) = commands(s, out, a, v, j, tags)?;
    if MOST_MACRO_BYTES <= q - a {
        return Err(FileFault::MacroTooLong.at(q));
    }
    let head = Head {
        symbol: symbol_code(b),
        tags,
        before: n,
        pattern: i - n,
        replacement: j - i,
        commands: k - j,
    };
    Ok(Built { place: q + 1, head })
}

// The calls before the pattern of the macro that begins at a, from `at` on: the place behind its first quote, and the end of their items.
fn calls_first(s: &[u8], out: &mut [u8], a: usize, at: usize) -> Result<(usize, usize), ReadError>
    requires { (a < at) × Reached s.now a at × (slot_bytes ≤ length out.old) }
    ensures { PrecededBy s.now a at out.old out.new result }
{
    let b = s[a];
    if b == b'\'' {
        return Ok((at, 0));
    }
    let (q, n) = calls_before(s, out, a, at, 0, b == b'#')?;
    Ok((q + 1, n))
}

// The macro that begins at a, from `at` on, behind its first quote or the `(` of its first call; its items are written from 0 on.
fn one_macro(s: &[u8], out: &mut [u8], a: usize, at: usize) -> Result<Built, ReadError>
    requires { (a < at) × (at ≤ length s.now) × (slot_bytes ≤ length out.old) }
    ensures { MacroFrom s.now a at out.old out.new result }
{
    if MOST_MACRO_BYTES < at - a {
        return Err(FileFault::MacroTooLong.at(a + MOST_MACRO_BYTES));
    }
    let (v, n) = calls_first(s, out, a, at)?;
    let pattern = whole(s, out, a, v, n)?;
    let (b, z) = find_replacement(s, a, pattern.place)?;
    parts(s, out, a, z + 1, b, n, pattern.used, pattern.tags)
}

// Reads the macro that begins at a, as one_macro; a refusal leaves zeros in the lent bytes.
pub fn read_macro(s: &[u8], out: &mut [u8], a: usize, at: usize) -> Result<Built, ReadError>
    requires { (a < at) × (at ≤ length s.now) × (slot_bytes ≤ length out.old) }
    ensures { ReadsMacro s.now a at out.old out.new result }
{
    let built = one_macro(s, out, a, at);
    if built.is_err() {
        out.fill(0);
    }
    built
}
