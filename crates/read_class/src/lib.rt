// Reads the members of classes. What each answer says of the machine of the definitions stands in specs/.
#![tactic(auto)]

pub mod class;

// In a class: the last member, if it may still begin a range, and a dash behind it. It is not written yet.
#[derive(Clone, Copy, Debug, PartialEq, Eq)]
pub(crate) enum Last {
    Free,
    Member(u8),
    Dash(u8),
}
