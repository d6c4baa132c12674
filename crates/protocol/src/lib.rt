// What the register's calls mean, and what is promised of every run of them (mathematics).
#![tactic(auto)]

pub mod line;

ghost use Rattle.protocol.specs.Promises.{Promises, HeldTells};

pub use line::{Line, Standing};

/// What the register promises of every run of its calls, and what the held part of a show tells. It does nothing.
pub fn promises_kept()
    ensures promises { Promises }
    ensures held { HeldTells }
{}
