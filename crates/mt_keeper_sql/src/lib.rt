//! A keeper of records in an SQLite database.
#![tactic(auto)]

mod files;
mod keeper;
mod rows;
mod statements;
#[cfg(test)]
mod tests;

pub use files::Unopened;
pub use keeper::SqlKeeper;
