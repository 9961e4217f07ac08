// The walk over the items of a replacement, or of commands.
ghost use Rattle.std.specs.Prelude.{◌≡◌, false, not, ◌&&◌, ◌+◌, ◌*◌, ◌-◌, ◌≤◌, eqb, leb, length};
ghost use Rattle.std.proofs.Math.Option.{some};
ghost use Rattle.macros.specs.Macro.{within};
ghost use Rattle.form_table.specs.Walk.{given, walk};
ghost use Rattle.form_table.specs.ActionWalk.{literal_length, text_length, figures as figures_of, text_spot, move_of, call_step, begin_step, text_step, high_step};
ghost use Rattle.form_table.specs.ActionWalk.{action_step, action_start, action_ends};
ghost use Rattle.form_table.specs.ActionWalk.ActionState.{action_at};
ghost use Rattle.form_table.specs.ActionWalk.ActionSpot.{behind_action, low_due, high_due};
ghost use Rattle.check_table.specs.ActionCode.{spot_of, state_of, next_of};

#[derive(Clone, Copy)]
pub enum ActionSpot {
    BehindAction(bool),
    TagDue,
    LengthDue,
    TextDue(u8),
    LowDue(u32),
    HighDue(u32, u16),
}

#[derive(Clone, Copy)]
pub struct ActionState {
    pub spelled: u32,
    pub spot: ActionSpot,
}

fn at(spelled: u32, spot: ActionSpot) -> Option<ActionState>
    ensures { next_of result ≡ some (action_at spelled (spot_of spot)) }
{
    Some(ActionState { spelled, spot })
}

// The digits of a number below 1,000,000,000.
fn figures(n: u32) -> u32
    ensures { result ≡ figures_of n }
{
    match n {
        ..10 => 1,
        10..100 => 2,
        100..1000 => 3,
        1000..10000 => 4,
        10000..100000 => 5,
        100000..1000000 => 6,
        1000000..10000000 => 7,
        10000000..100000000 => 8,
        _ => 9,
    }
}

// A literal, behind a bare `&` or `#` or not.
fn literal_length(mark: bool, b: u8) -> u32
    ensures { result ≡ literal_length mark b }
{
    1 + form_marks::bit(form_marks::is_replacement_sign(b) | ((b == 40) & mark))
}

fn text_length(b: u8) -> u32
    ensures { result ≡ text_length b }
{
    1 + form_marks::bit(form_marks::is_text_sign(b))
}

fn literal_step(n: u32, mark: bool, o: u8) -> Option<ActionState>
    requires { n ≤ 100000 }
    ensures { next_of result ≡ begin_step false 0 n mark 40 o }
{
    if o < 1 {
        return None;
    }
    at(
        n + literal_length(mark, o),
        ActionSpot::BehindAction((o == 38) | (o == 35)),
    )
}

// `{o}`, one of k tags.
fn tag_step(k: u8, n: u32, o: u8) -> Option<ActionState>
    requires { n ≤ 100010 }
    ensures { next_of result ≡ given (within 1 k o) (action_at (n + figures_of o) (behind_action false)) }
{
    if form_marks::is_within(1, k, o) {
        return at(n + figures(o as u32), ActionSpot::BehindAction(false));
    }
    None
}

// A call with a number of at most l, which nothing moves.
fn number_step(n: u32, m: u8, l: u32) -> Option<ActionState>
    requires { n ≤ 100000 }
    ensures { next_of result ≡ given (eqb m 0) (action_at (n + 5) (low_due l)) }
{
    if m < 1 {
        return at(n + 5, ActionSpot::LowDue(l));
    }
    None
}

// The call that divides, in a replacement only.
fn divide_step(cmd: bool, n: u32, m: u8) -> Option<ActionState>
    requires { n ≤ 100000 }
    ensures { next_of result ≡ given (eqb m 0 && not cmd) (action_at (n + 5) (low_due 999999999)) }
{
    if cmd {
        return None;
    }
    number_step(n, m, 999999999)
}

fn insert_step(cmd: bool, n: u32) -> Option<ActionState>
    ensures { next_of result ≡ given (not cmd) (action_at n (behind_action false)) }
{
    if cmd {
        return None;
    }
    at(n, ActionSpot::BehindAction(false))
}

// The call of code c with the letter o and the move of code m.
fn call_step(cmd: bool, n: u32, c: u8, m: u8, o: u8) -> Option<ActionState>
    requires { n ≤ 100000 }
    ensures { next_of result ≡ call_step cmd n c o (move_of m) }
{
    if 4 < m {
        return None;
    }
    if o < 97 {
        return None;
    }
    if 122 < o {
        return None;
    }
    let moves = form_marks::bit(0 < m);
    match c {
        6 => insert_step(cmd, n + 4 + moves),
        7 => insert_step(cmd, n + 4 + moves),
        8 => at(n + 5 + moves, ActionSpot::TagDue),
        9 => at(n + 6 + moves, ActionSpot::LengthDue),
        10 => number_step(n, m, 20),
        11 => number_step(n, m, 999999999),
        12 => number_step(n, m, 999999999),
        13 => divide_step(cmd, n, m),
        _ => None,
    }
}

fn begin_step(cmd: bool, k: u8, n: u32, mark: bool, c: u8, o: u8) -> Option<ActionState>
    requires { n ≤ 100000 }
    ensures { next_of result ≡ begin_step cmd k n mark c o }
{
    match c {
        40 => {
            if cmd {
                return None;
            }
            literal_step(n, mark, o)
        }
        41 => {
            if cmd {
                return None;
            }
            tag_step(k, n + 2, o)
        }
        _ => call_step(cmd, n, c / 8, c % 8, o),
    }
}

fn text_spot(q: u8) -> ActionSpot
    ensures { spot_of result ≡ text_spot q }
{
    if q < 1 {
        return ActionSpot::BehindAction(false);
    }
    ActionSpot::TextDue(q)
}

// Two bytes of a text of which q are to come, or its last and a zero.
fn text_step(n: u32, q: u8, c: u8, o: u8) -> Option<ActionState>
    requires { n ≤ 100000 }
    ensures { next_of result ≡ text_step n q c o }
{
    if c < 1 {
        return None;
    }
    let first = n + text_length(c);
    if q == 1 {
        if 0 < o {
            return None;
        }
        return at(first, ActionSpot::BehindAction(false));
    }
    if o < 1 {
        return None;
    }
    at(first + text_length(o), text_spot(q.saturating_sub(2)))
}

fn length_step(n: u32, c: u8, o: u8) -> Option<ActionState>
    ensures { next_of result ≡ given (eqb c 43 && leb o 100) (action_at n (text_spot o)) }
{
    if (c == 43) & (o <= 100) {
        return at(n, text_spot(o));
    }
    None
}

fn low_step(n: u32, l: u32, c: u8, o: u8) -> Option<ActionState>
    ensures { next_of result ≡ some (action_at n (high_due l (c + 256 * o))) }
{
    at(n, ActionSpot::HighDue(l, c as u16 + 256 * o as u16))
}

// The high half of a number of at most l, v being the low.
fn high_step(n: u32, l: u32, v: u16, c: u8, o: u8) -> Option<ActionState>
    requires { n ≤ 100000 }
    ensures { next_of result ≡ high_step n l (v + 65536 * c + 16777216 * o) }
{
    let w = v as u32 + 65536 * c as u32 + 16777216 * o as u32;
    if (1 <= w) & (w <= l) {
        return at(n + figures(w), ActionSpot::BehindAction(false));
    }
    None
}

fn item_step(cmd: bool, k: u8, s: ActionState, c: u8, o: u8) -> Option<ActionState>
    requires { s.spelled ≤ 100000 }
    ensures { next_of result ≡ action_step cmd k (state_of s) c o }
{
    let n = s.spelled;
    let spot = s.spot;
    match spot {
        ActionSpot::BehindAction(mark) => begin_step(cmd, k, n, mark, c, o),
        ActionSpot::TagDue => {
            if c == 42 {
                return tag_step(k, n, o);
            }
            None
        }
        ActionSpot::LengthDue => length_step(n, c, o),
        ActionSpot::TextDue(q) => text_step(n, q, c, o),
        ActionSpot::LowDue(l) => low_step(n, l, c, o),
        ActionSpot::HighDue(l, v) => high_step(n, l, v, c, o),
    }
}

pub(crate) fn walk_actions(cmd: bool, k: u8, n: u32, items: &[u8]) -> Option<ActionState>
    requires { (n ≤ 50000) × (length items.now ≤ 1024) }
    ensures { next_of result ≡ walk (action_step cmd k) (action_start n) items.now }
{
    let mut s = ActionState {
        spelled: n,
        spot: ActionSpot::BehindAction(false),
    };
    for i in 0..items.len() / 2 {
        s = item_step(cmd, k, s, items[2 * i], items[2 * i + 1])?;
    }
    if items.len() % 2 == 1 {
        return None;
    }
    Some(s)
}

pub(crate) fn actions_end(s: ActionState) -> bool
    ensures { result ≡ action_ends (state_of s) }
{
    let spot = s.spot;
    match spot {
        ActionSpot::BehindAction(_) => true,
        ActionSpot::TagDue => false,
        ActionSpot::LengthDue => false,
        ActionSpot::TextDue(_) => false,
        ActionSpot::LowDue(_) => false,
        ActionSpot::HighDue(_, _) => false,
    }
}
