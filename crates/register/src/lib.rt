// The register: a table of forms, a book of what is known of their sets, and a walk.
#![tactic(auto)]

pub mod body;
mod book;
pub mod register;
pub mod showing;
mod trees;
mod walking;

pub use body::Body;
pub use register::Register;
pub use showing::Shown;
