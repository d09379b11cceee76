// The kinds of body in use; a source takes any other that is copied whole.

// A word of the host's.
pub type Word = u32;

// A place in a text that the host keeps.
#[derive(Clone, Copy, PartialEq, Eq, Debug)]
pub struct Place {
    pub start: u16,
    pub length: u16,
}
