//! The texts of events: which are import texts, and what they claim; which are withdrawal texts, and
//! which name they withdraw; the first refused line of any other; and the one canonical text of a
//! claim and of a withdrawal.
#![tactic(auto)]

mod canonical;
mod events;
mod headers;
mod import_text;
pub mod laws;
mod lines;
mod refusals;
mod rows;
mod source_line;
#[cfg(test)]
mod tests;
mod withdrawals;

pub use canonical::print_import;
pub use events::{EventText, Said, in_event_grammar, read_event};
pub use headers::Header;
pub use import_text::{ImportText, MOST_BYTES, in_grammar, read_header, read_import};
pub use refusals::{FormRefused, ImportRefused, Wanted};
pub use withdrawals::{print_withdraw, withdraws};
