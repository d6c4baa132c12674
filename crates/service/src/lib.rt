// The service: one line in, one reply out, over one register.
#![tactic(auto)]

mod files;
pub mod service;

pub use service::Service;
