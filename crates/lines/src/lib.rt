// The language of lines: commands read, replies written.
#![tactic(auto)]

mod command;
mod input;
mod number;
mod reply;

pub use command::{Command, read_command};
pub use input::next_line;
pub use reply::{Reply, put_reply};
