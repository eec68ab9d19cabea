//! Niederreiter's digital sequences: their matrices, their quality parameter, and the theorem that
//! joins the two.
#![tactic(auto)]

mod expansions;
mod generator_matrices;
pub mod laws;
mod quality_parameter;
mod rows;
#[cfg(test)]
mod tests;

pub use generator_matrices::matrices;
pub use quality_parameter::{qualities, quality};
