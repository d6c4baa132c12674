// The least or the greatest fixed point of a monotone round, wherever sets are kept and whatever indices stand for.
#![tactic(auto)]

mod apart;
pub mod fixed_point;
pub mod index_set;
pub mod pairs;
pub mod round;
pub mod search;
mod two_sets;
mod whole;
