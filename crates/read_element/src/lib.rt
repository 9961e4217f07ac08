// Reads elements of a pattern. What each answer says of the machine of the definitions stands in specs/.
#![tactic(auto)]

pub mod element;

use form_element::Element;

// An element, the place behind it, and the end of what is written of it.
#[derive(Clone, Copy, Debug, PartialEq, Eq)]
pub(crate) struct Item {
    pub(crate) element: Element,
    pub(crate) place: usize,
    pub(crate) end: usize,
}
