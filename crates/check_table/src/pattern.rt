// The walk over a pattern's items of two bytes.
ghost use Rattle.std.specs.Prelude.{◌≡◌, [], suc, ◌+◌, ◌≤◌, eqb, length};
ghost use Rattle.std.proofs.Math.Option.{none, some};
ghost use Rattle.macros.specs.Macro.{pick};
ghost use Rattle.macros.specs.Macro.PatternUnit.{class};
ghost use Rattle.form_table.specs.Walk.{given, walk};
ghost use Rattle.form_table.specs.PatternWalk.{joins_at, literal_length, literal_joint, unit_of, closure_of, element_step, sign_step, piece_step};
ghost use Rattle.form_table.specs.PatternWalk.{member_length, member_spot, member_step, range_step};
ghost use Rattle.form_table.specs.PatternWalk.{pattern_step, pattern_start, pattern_ends};
ghost use Rattle.form_table.specs.PatternWalk.PatternState.{pattern_at};
ghost use Rattle.form_table.specs.PatternWalk.PatternSpot.{behind_piece};
ghost use Rattle.form_table.specs.PatternWalk.Joint.{loose};
ghost use Rattle.check_table.specs.PatternCode.{joint_of, inside_of, spot_of, state_of, next_of, closed_joint, ended, Room};

#[derive(Clone, Copy)]
pub enum Joint {
    Loose,
    AfterStar,
    AfterQuery,
    AfterMark,
}

// Where in a class: 0 behind `[`, 1 behind `[~`, 2 behind a single member, 3 behind a `-` that is one, 4 behind a range.
const SINGLE: u8 = 2;

const DASH: u8 = 3;

const RANGE: u8 = 4;

#[derive(Clone, Copy)]
pub enum PatternSpot {
    BehindPiece(Joint),
    InClass(Joint, u8),
    InRange(Joint, u8),
}

#[derive(Clone, Copy)]
pub struct PatternState {
    pub spelled: u32,
    pub tags: u8,
    pub braces: u32,
    pub elements: u32,
    pub spot: PatternSpot,
}

fn joins_at(j: Joint, b: u8) -> bool
    ensures { result ≡ joins_at (joint_of j) b }
{
    match j {
        Joint::Loose => false,
        Joint::AfterStar => b == 45,
        Joint::AfterQuery => form_marks::is_within(49, 54, b),
        Joint::AfterMark => b == 40,
    }
}

fn literal_length(j: Joint, b: u8) -> u32
    ensures { result ≡ literal_length (joint_of j) b }
{
    1 + form_marks::bit(form_marks::is_sign(b) | joins_at(j, b))
}

fn literal_joint(b: u8) -> Joint
    ensures { joint_of result ≡ literal_joint b }
{
    match b {
        63 => Joint::AfterQuery,
        38 => Joint::AfterMark,
        35 => Joint::AfterMark,
        _ => Joint::Loose,
    }
}

// What is left to join behind a closure of code k.
fn closed(j: Joint, k: u8) -> Joint
    ensures { joint_of result ≡ closed_joint (joint_of j) k }
{
    match k {
        0 => j,
        1 => Joint::AfterStar,
        _ => Joint::Loose,
    }
}

fn moved(s: PatternState, n: u32, spot: PatternSpot) -> Option<PatternState>
    ensures { next_of result ≡ some (pattern_at n s.tags s.braces s.elements (spot_of spot)) }
{
    Some(PatternState {
        spelled: n,
        tags: s.tags,
        braces: s.braces,
        elements: s.elements,
        spot,
    })
}

// A unit of n bytes so far, with a closure of code k.
fn behind(s: PatternState, n: u32, j: Joint, k: u8) -> Option<PatternState>
    requires { (n ≤ 100010) × (s.elements ≤ 100000) }
    ensures { next_of result ≡ ended behind_piece n s.tags s.braces s.elements (joint_of j) (closure_of k) }
{
    if 2 < k {
        return None;
    }
    Some(PatternState {
        spelled: n + k as u32,
        tags: s.tags,
        braces: s.braces,
        elements: s.elements + 1,
        spot: PatternSpot::BehindPiece(closed(j, k)),
    })
}

fn literal_step(s: PatternState, j: Joint, k: u8, o: u8) -> Option<PatternState>
    requires { Room s }
    ensures { next_of result ≡ element_step s.spelled s.tags s.braces s.elements (joint_of j) (unit_of 2 o) (closure_of k) }
{
    if o < 1 {
        return None;
    }
    behind(s, s.spelled + literal_length(j, o), literal_joint(o), k)
}

// `?` with 1 to 6, of two bytes, or a call, of four.
fn unit_step(s: PatternState, ok: bool, length: u32, k: u8) -> Option<PatternState>
    requires { Room s × (length ≤ 4) }
    ensures { next_of result ≡ pick ok (ended behind_piece (s.spelled + length) s.tags s.braces s.elements loose (closure_of k)) none }
{
    if ok {
        return behind(s, s.spelled + length, Joint::Loose, k);
    }
    None
}

// `[`, where w is 0, or `[~`, where it is 1.
fn class_step(s: PatternState, w: u8, k: u8, o: u8) -> Option<PatternState>
    requires { Room s × (w ≤ 1) }
    ensures { next_of result ≡ element_step s.spelled s.tags s.braces s.elements loose (given (eqb o 0) (class (eqb w 1) [])) (closure_of k) }
{
    if 0 < o {
        return None;
    }
    if 2 < k {
        return None;
    }
    Some(PatternState {
        spelled: s.spelled + 2 + w as u32 + k as u32,
        tags: s.tags,
        braces: s.braces,
        elements: s.elements + 1,
        spot: PatternSpot::InClass(closed(Joint::Loose, k), w),
    })
}

// The unit of code u with the operand o.
fn element_step(s: PatternState, j: Joint, u: u8, k: u8, o: u8) -> Option<PatternState>
    requires { Room s }
    ensures { next_of result ≡ element_step s.spelled s.tags s.braces s.elements (joint_of j) (unit_of u o) (closure_of k) }
{
    match u {
        2 => literal_step(s, j, k, o),
        3 => unit_step(s, form_marks::is_within(1, 6, o), 2, k),
        4 => unit_step(s, form_marks::is_within(97, 122, o), 4, k),
        5 => unit_step(s, form_marks::is_within(97, 122, o), 4, k),
        6 => class_step(s, 0, k, o),
        7 => class_step(s, 1, k, o),
        _ => None,
    }
}

// Behind a piece of one byte.
fn behind_sign(n: u32, t: u8, d: u32, e: u32) -> Option<PatternState>
    requires { n ≤ 100000 }
    ensures { next_of result ≡ some (pattern_at (suc n) t d e (behind_piece loose)) }
{
    Some(PatternState {
        spelled: n + 1,
        tags: t,
        braces: d,
        elements: e,
        spot: PatternSpot::BehindPiece(Joint::Loose),
    })
}

// A brace, `^` or `$`.
fn sign_step(s: PatternState, c: u8) -> Option<PatternState>
    requires { Room s }
    ensures { next_of result ≡ sign_step s.spelled s.tags s.braces s.elements c }
{
    let n = s.spelled;
    let t = s.tags;
    let d = s.braces;
    let e = s.elements;
    match c {
        1 => {
            if t < 99 {
                return behind_sign(n, t + 1, d + 1, e);
            }
            None
        }
        2 => {
            if 0 < d {
                return behind_sign(n, t, d - 1, e);
            }
            None
        }
        3 => behind_sign(n, t, d, e + 1),
        4 => behind_sign(n, t, d, e + 1),
        _ => None,
    }
}

// The code of a literal without a closure.
const LITERAL: u8 = 8;

// A lower case letter needs no `\` and joins nothing: most items take this short way.
fn piece_step(s: PatternState, j: Joint, c: u8, o: u8) -> Option<PatternState>
    requires { Room s }
    ensures { next_of result ≡ piece_step s.spelled s.tags s.braces s.elements (joint_of j) c o }
{
    if form_marks::is_within(97, 122, o) & (c == LITERAL) {
        return behind_sign(s.spelled, s.tags, s.braces, s.elements + 1);
    }
    if 7 < c {
        return element_step(s, j, c / 4, c % 4, o);
    }
    if 0 < o {
        return None;
    }
    sign_step(s, c)
}

fn member_length(w: u8, b: u8) -> u32
    ensures { result ≡ member_length (inside_of w) b }
{
    1 + form_marks::bit(form_marks::is_class_sign(b) | ((b == 126) & (w == 0)))
}

fn member_spot(w: u8, b: u8) -> u8
    ensures { inside_of result ≡ member_spot (inside_of w) b }
{
    if (b == 45) & ((w == SINGLE) | (w == DASH)) {
        return DASH;
    }
    SINGLE
}

// A single member, a range's first end, or the `]`.
fn member_step(s: PatternState, j: Joint, w: u8, c: u8, o: u8) -> Option<PatternState>
    requires { Room s }
    ensures { next_of result ≡ member_step s.spelled s.tags s.braces s.elements (joint_of j) (inside_of w) c o }
{
    let n = s.spelled + form_marks::bit(w == DASH);
    match c {
        32 => {
            if o < 1 {
                return None;
            }
            moved(
                s,
                n + member_length(w, o),
                PatternSpot::InClass(j, member_spot(w, o)),
            )
        }
        33 => moved(s, n + 3, PatternSpot::InRange(j, o)),
        35 => {
            if (o == 0) & (SINGLE <= w) {
                return moved(s, s.spelled, PatternSpot::BehindPiece(j));
            }
            None
        }
        _ => None,
    }
}

// A range's second end.
fn range_step(s: PatternState, j: Joint, a: u8, c: u8, o: u8) -> Option<PatternState>
    ensures { next_of result ≡ range_step s.spelled s.tags s.braces s.elements (joint_of j) a c o }
{
    if (c == 34) & form_marks::is_range(a, o) {
        return moved(s, s.spelled, PatternSpot::InClass(j, RANGE));
    }
    None
}

fn item_step(s: PatternState, c: u8, o: u8) -> Option<PatternState>
    requires { Room s }
    ensures { next_of result ≡ pattern_step (state_of s) c o }
{
    let spot = s.spot;
    match spot {
        PatternSpot::BehindPiece(j) => piece_step(s, j, c, o),
        PatternSpot::InClass(j, w) => member_step(s, j, w, c, o),
        PatternSpot::InRange(j, a) => range_step(s, j, a, c, o),
    }
}

pub(crate) fn walk_pattern(items: &[u8]) -> Option<PatternState>
    requires { length items.now ≤ 1024 }
    ensures { next_of result ≡ walk pattern_step pattern_start items.now }
{
    let mut s = PatternState {
        spelled: 6,
        tags: 0,
        braces: 0,
        elements: 0,
        spot: PatternSpot::BehindPiece(Joint::Loose),
    };
    for i in 0..items.len() / 2 {
        s = item_step(s, items[2 * i], items[2 * i + 1])?;
    }
    if items.len() % 2 == 1 {
        return None;
    }
    Some(s)
}

// Whether the pattern is whole and has k tags.
pub(crate) fn pattern_ends(s: PatternState, k: u8) -> bool
    ensures { result ≡ pattern_ends k (state_of s) }
{
    let spot = s.spot;
    match spot {
        PatternSpot::BehindPiece(_) => (s.tags == k) & ((s.braces == 0) & (0 < s.elements)),
        PatternSpot::InClass(_, _) => false,
        PatternSpot::InRange(_, _) => false,
    }
}
