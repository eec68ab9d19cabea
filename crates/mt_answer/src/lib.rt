//! Answers to questions: what holds over the imports of a table, its text on the command line, and
//! its answer over HTTP.
#![tactic(auto)]

mod answers;
mod bodies;
mod claims;
mod derivations;
mod exports;
mod facts;
pub mod laws;
mod least;
mod lines;
mod replies;
mod sheets;
mod tables;
#[cfg(test)]
mod tests;

pub use answers::{answer, find, text};
pub use facts::{Fact, Facts};
pub use least::least_m;
pub use lines::outside_line;
pub use replies::Answer;
