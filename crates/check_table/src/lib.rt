// 01, refusal 1: whether lent bytes are the form of an accepted table.
#![tactic(auto)]

ghost use Rattle.std.specs.Prelude.{◌≡◌, ◌≤◌, length};
ghost use Rattle.form_table.specs.Check.{items_fit, slot_fits, checks};

use form_bytes::{all_zero, all_zero_by_four};
use form_items::layout::{BEFORE_AT, COMMANDS_AT, HEADER_BYTES, PATTERN_AT, REPLACEMENT_AT};
use form_items::two_at;

mod actions;
mod pattern;

// The calls before a pattern, pattern, replacement and commands behind a header of k tags; those calls have no tag to store.
fn items_fit(k: u8, bs: &[u8], ps: &[u8], rs: &[u8], cs: &[u8]) -> bool
    requires { (length bs.now ≤ 1024) × (length ps.now ≤ 1024) × (length rs.now ≤ 1024) × (length cs.now ≤ 1024) }
    ensures { result ≡ items_fit k bs.now ps.now rs.now cs.now }
{
    let Some(p) = pattern::walk_pattern(ps) else {
        return false;
    };
    if !pattern::pattern_ends(p, k) {
        return false;
    }
    let Some(r) = actions::walk_actions(false, k, p.spelled, rs) else {
        return false;
    };
    if !actions::actions_end(r) {
        return false;
    }
    let Some(c) = actions::walk_actions(true, k, r.spelled, cs) else {
        return false;
    };
    if !actions::actions_end(c) {
        return false;
    }
    let Some(b) = actions::walk_actions(true, 0, c.spelled, bs) else {
        return false;
    };
    actions::actions_end(b) & (b.spelled <= 512)
}

fn slot_fits(s: &[u8]) -> bool
    requires { length s.now ≡ 1024 }
    ensures { result ≡ slot_fits s.now }
{
    if !form_marks::is_within(1, 2, s[0]) {
        return false;
    }
    let pattern = HEADER_BYTES + two_at(s, BEFORE_AT);
    let replacement = pattern + two_at(s, PATTERN_AT);
    let commands = replacement + two_at(s, REPLACEMENT_AT);
    let end = commands + two_at(s, COMMANDS_AT);
    if 1024 < end {
        return false;
    }
    if !all_zero(&s[end..]) {
        return false;
    }
    items_fit(
        s[1],
        &s[HEADER_BYTES..pattern],
        &s[pattern..replacement],
        &s[replacement..commands],
        &s[commands..end],
    )
}

// Behind the last macro all is zero.
pub fn is_table(table: &[u8]) -> bool
    ensures { result ≡ checks table.now }
{
    if table.len() != 98304 {
        return false;
    }
    for k in 0..96 {
        let at = 1024 * k;
        if table[at] == 0 {
            return all_zero_by_four(&table[at..]);
        }
        if !slot_fits(&table[at..at + 1024]) {
            return false;
        }
    }
    true
}
