// Machines: finite transition systems behind one interface, and the layers that build them.
#![tactic(auto)]

pub mod error;
pub mod interface;
pub mod mask;
pub mod product;
mod row;
pub mod sheet;
pub mod timer;

pub use error::BodyError;
pub use interface::{MOST_STATES, Machine};
pub use mask::Masked;
pub use product::{Product, pair_count};
pub use sheet::Sheet;
pub use timer::Timer;
