// Files of parts: a reader is fresh, then listed, then closed, and hands out parts only while it is listed.
#![tactic(auto)]

mod contents;
pub mod part;
pub mod reader;

pub use part::{Kind, Part};
pub use reader::{Closed, Fresh, Listed};
