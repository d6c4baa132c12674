// The walk through a tree of goals: the step rules, the path, and the calls of a walk.
#![tactic(auto)]

mod goal_forms;
mod path;
mod rules;
mod successor;
pub mod walk;

pub use walk::{Phase, Walk};
