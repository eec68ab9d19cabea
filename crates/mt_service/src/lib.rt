//! The list of accepted events: what comes of each text, what is kept of it and who is told, and the
//! list that kept records stand for.
#![tactic(auto)]

mod bodies;
mod checks;
mod gate;
pub mod laws;
mod lines;
mod opening;
mod outcomes;
mod service;
mod telling;
#[cfg(test)]
mod tests;

pub use checks::check_text;
pub use gate::{MOST_CHOICES, read_claim};
pub use opening::{OpenRefused, Why};
pub use outcomes::Outcome;
pub use service::Service;
