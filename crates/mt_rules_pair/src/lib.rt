//! Propagation rules with two parents, each with the strength that its system has.
#![tactic(auto)]

mod products;
mod rows;
#[cfg(test)]
mod tests;
mod uuv_systems;

pub use products::product;
pub use uuv_systems::uuv;
