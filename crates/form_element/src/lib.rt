// A pattern's element (01, part 2), for reader and matcher: its unit and its closure, and its item in the table's form.
#![tactic(auto)]

ghost use Rattle.std.specs.Prelude.{◌+◌, ◌≤◌, ◌<◌, ◌≡◌, [], ◌∷◌, length};
ghost use Rattle.form_table.specs.Form.{closure_code};
ghost use Rattle.form_items.specs.Items.{Wrote};
ghost use Rattle.form_element.specs.Element.{SomePiece, AnyPiece, closure_from, item_of, element_of, sign_at, unit_at, closure_at};

use form_items::codes::{
    CLASS, CLASS_NOT, COUNTER_CALL, END, KIND, LEFT, LITERAL, ONCE, ONE_OR_MORE, RIGHT, STACK_CALL,
    START, UNIT_STEP, ZERO_OR_MORE,
};
use form_items::put_item;

// What a closure may follow; `^` and `$`; and the braces, which have an item as these have. The members of a class stand behind its item.
#[derive(Clone, Copy, Debug, PartialEq, Eq)]
pub enum Unit {
    Literal(u8),
    Kind(u8),
    Class,
    ClassNot,
    StackCall(u8),
    CounterCall(u8),
    Start,
    End,
    Left,
    Right,
}

// No closure, `*` and `*-`.
#[derive(Clone, Copy, Debug, PartialEq, Eq)]
pub enum Closure {
    Once,
    OneOrMore,
    ZeroOrMore,
}

// A unit with its closure.
#[derive(Clone, Copy, Debug, PartialEq, Eq)]
pub struct Element {
    pub unit: Unit,
    pub closure: Closure,
}

// A closure's code.
#[tactic(auto, unfolding(form_table::specs::Form::closure_code))]
impl From<Closure> for u8 {
    ghost from_gives = { λ c k. (k ≡ closure_code (closure_from c)) × (k ≤ 2) };

    fn from(c: Closure) -> u8 {
        match c {
            Closure::Once => ONCE,
            Closure::OneOrMore => ONE_OR_MORE,
            Closure::ZeroOrMore => ZERO_OR_MORE,
        }
    }
}

// An element's item, a code and an operand. What has no closure has a code of its own.
#[tactic(auto, unfolding(crate::specs::Element::item_of, form_table::specs::Form::piece_items, form_table::specs::Form::unit_code, form_table::specs::Form::unit_operand))]
fn item_of(e: Element) -> (u8, u8)
    ensures { result.0 ∷ result.1 ∷ [] ≡ item_of e }
{
    let k = u8::from(e.closure);
    match e.unit {
        Unit::Literal(b) => (LITERAL + k, b),
        Unit::Kind(n) => (KIND + k, n),
        Unit::Class => (CLASS + k, 0),
        Unit::ClassNot => (CLASS_NOT + k, 0),
        Unit::StackCall(i) => (STACK_CALL + k, i),
        Unit::CounterCall(i) => (COUNTER_CALL + k, i),
        Unit::Start => (START, 0),
        Unit::End => (END, 0),
        Unit::Left => (LEFT, 0),
        Unit::Right => (RIGHT, 0),
    }
}

// Stores an element's item, from place n on.
pub fn put_element(out: &mut [u8], n: usize, e: Element)
    requires { n + 1 < length out.old }
    ensures { Wrote out.old out.new n (item_of e) }
{
    let (code, operand) = item_of(e);
    put_item(out, n, code, operand);
}

// The unit of an item.
#[tactic(auto, using(std::proofs::lemmas::Bool::Decides::nat_tests), unfolding(crate::specs::Element::unit_at, macros::specs::Macro::pick))]
fn unit_of(code: u8, operand: u8) -> Unit
    ensures { result ≡ unit_at code operand }
{
    match code {
        0..LITERAL => sign_of(code),
        LITERAL..KIND => Unit::Literal(operand),
        KIND..STACK_CALL => Unit::Kind(operand),
        STACK_CALL..COUNTER_CALL => Unit::StackCall(operand),
        COUNTER_CALL..CLASS => Unit::CounterCall(operand),
        CLASS..CLASS_NOT => Unit::Class,
        _ => Unit::ClassNot,
    }
}

// The unit of an item that has no closure.
#[tactic(auto, using(std::proofs::lemmas::Bool::Decides::nat_tests), unfolding(crate::specs::Element::sign_at, macros::specs::Macro::pick))]
fn sign_of(code: u8) -> Unit
    ensures { result ≡ sign_at code }
{
    match code {
        START => Unit::Start,
        END => Unit::End,
        LEFT => Unit::Left,
        _ => Unit::Right,
    }
}

// The closure of an item.
#[tactic(auto, using(std::proofs::lemmas::Bool::Decides::nat_tests), unfolding(crate::specs::Element::closure_at, macros::specs::Macro::pick))]
fn closure_of(code: u8) -> Closure
    ensures { result ≡ closure_at code }
{
    if code < LITERAL {
        return Closure::Once;
    }
    match code % UNIT_STEP {
        ONE_OR_MORE => Closure::OneOrMore,
        ZERO_OR_MORE => Closure::ZeroOrMore,
        _ => Closure::Once,
    }
}

// The element whose item stands at a place.
pub fn element_at(items: &[u8], at: usize) -> Element
    requires { SomePiece items.now at }
    ensures { AnyPiece items.now at (λ p. result ≡ element_of p) }
{
    let code = items[at];
    let operand = items[at + 1];
    Element {
        unit: unit_of(code, operand),
        closure: closure_of(code),
    }
}
