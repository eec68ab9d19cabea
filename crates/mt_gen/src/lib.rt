//! Claims that are drawn at random, and hold.
#![tactic(auto)]

mod claims;
mod systems;
#[cfg(test)]
mod tests;

pub use claims::generated;
