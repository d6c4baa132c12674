// How sets of forms stand.

/// What is known of a set: no state of any machine, however large, holds it, or some state of some machine does.
/// The numbers are those that the service replies to Q with, where 0 is a set that does not stand.
#[derive(Clone, Copy, PartialEq, Eq, Debug, Default)]
pub enum Standing {
    Impossible = 1,
    #[default]
    Possible = 2,
}

// The default fills the places that are free; it is true of every table.
/// A line of the book: a set, 64 bits with bit f for form f, and how it stands.
#[derive(Clone, Copy, PartialEq, Eq, Debug, Default)]
pub struct Line {
    pub set: u64,
    pub standing: Standing,
}
