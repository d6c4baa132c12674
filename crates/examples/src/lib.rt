// The rules by example: tests of the crates below, in a crate of their own so that those are not proved twice.
#![tactic(auto)]

#[cfg(test)]
mod files;
#[cfg(test)]
mod machines;
#[cfg(test)]
mod searches;
#[cfg(test)]
mod services;
#[cfg(test)]
mod walks;
