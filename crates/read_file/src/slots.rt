// Storing a macro in its slot of a table.
ghost use Rattle.std.specs.Prelude.{◌≤◌, ◌<◌, ◌+◌, length};
ghost use Rattle.macros.specs.Bounds.{most_tags};
ghost use Rattle.form_table.specs.Form.{slot_bytes, body_bytes, two};
ghost use Rattle.form_items.specs.Items.{Wrote};
ghost use Rattle.read_macro.specs.OneMacro.{head_bytes, used_bytes};
ghost use Rattle.read_file.specs.File.{slot_of};

use crate::SLOT_BYTES;
use form_items::layout::{BEFORE_AT, COMMANDS_AT, HEADER_BYTES, PATTERN_AT, REPLACEMENT_AT};
use form_items::put_item;
use read_macro::Head;

// A number of two bytes, low byte first.
fn put_two(out: &mut [u8], n: usize, v: usize)
    requires { (n + 1 < length out.old) × (v ≤ body_bytes) }
    ensures { Wrote out.old out.new n (two v) }
{
    put_item(out, n, (v % 256) as u8, (v / 256) as u8);
}

// A slot's first bytes.
fn put_head(table: &mut [u8], base: usize, head: Head)
    requires { (base + slot_bytes ≤ length table.old) × (used_bytes head ≤ body_bytes) × (head.tags ≤ most_tags) }
    ensures { Wrote table.old table.new base (head_bytes head) }
{
    put_item(table, base, head.symbol, head.tags as u8);
    put_two(table, base + BEFORE_AT, head.before);
    put_two(table, base + PATTERN_AT, head.pattern);
    put_two(table, base + REPLACEMENT_AT, head.replacement);
    put_two(table, base + COMMANDS_AT, head.commands);
}

// A slot: its head, the items of the macro, and zeros.
pub(crate) fn store(table: &mut [u8], base: usize, body: &[u8], head: Head)
    requires { (base + slot_bytes ≤ length table.old) × (used_bytes head ≤ length body.now) × (used_bytes head ≤ body_bytes) × (head.tags ≤ most_tags) }
    ensures { Wrote table.old table.new base (slot_of head body.now) }
{
    let used = head.before + head.pattern + head.replacement + head.commands;
    put_head(table, base, head);
    let items = base + HEADER_BYTES;
    let end = base + SLOT_BYTES;
    table[items..items + used].copy_from_slice(&body[..used]);
    table[items + used..end].fill(0);
}
