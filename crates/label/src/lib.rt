// The states of a finite machine labelled with the forms that hold there.
#![tactic(auto)]

mod column;
mod find;
mod labelling;
mod mark;
mod rounds;
mod scratch;
mod successors;

pub use labelling::label;
