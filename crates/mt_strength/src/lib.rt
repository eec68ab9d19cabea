//! The strength of a system of rows.
#![tactic(auto)]

mod byte_rows;
mod checks;
mod choice_rows;
mod counted_search;
mod dependence;
mod lanes;
pub mod laws;
mod packed_rows;
mod pivots;
mod searches;
mod sequences;
#[cfg(test)]
mod tests;
mod verdicts;
mod walks;

pub use checks::{Checked, Tested, choices_of};
pub use counted_search::check_with;
pub use sequences::{SeqVerdict, check_sequence};
pub use verdicts::{Verdict, check, strength_of};
