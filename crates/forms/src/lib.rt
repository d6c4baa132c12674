// Forms, the table that keeps them, and why a call is refused.
#![tactic(auto)]

pub mod form;
mod guard;
pub mod refusal;
pub mod set;
pub mod table;

pub use form::{Form, Quantifier};
pub use refusal::{Refusal, Rejected};
pub use table::Table;
