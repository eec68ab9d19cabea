//! Propagation rules with one parent, and the systems that need no parent, each with the strength
//! that it has.
#![tactic(auto)]

mod axioms;
mod quotients;
mod rows;
mod sequences;
#[cfg(test)]
mod tests;

pub use axioms::{constant, identity, parity, zero};
pub use quotients::{quotient_drop, quotient_keep};
pub use rows::{deeper, fewer, longer, shallower};
pub use sequences::{seq_cut, seq_fewer, seq_to_net};
