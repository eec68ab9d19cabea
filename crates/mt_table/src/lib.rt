//! The values of all cells of a table, and the derivations that conclude them.
#![tactic(auto)]

mod changes;
pub mod laws;
mod needed_lines;
mod published;
mod table;
#[cfg(test)]
mod tests;
mod work;

pub use published::Base;
pub use table::{Applied, Table};
