//! A desk that takes imports one after the other and publishes the list, and readers beside it.
#![tactic(auto)]

mod connection;
mod desk;
mod history;
pub mod laws;
mod office;
mod replies;
mod requests;
mod shared;
#[cfg(test)]
mod tests;
mod workers;

pub use connection::{Ended, MOST_RESPONSES, serve_connection};
pub use desk::{Desk, DeskRefused, Done, Looked, OpenDesk};
pub use history::History;
pub use office::Office;
pub use shared::{LockedOffice, NamedHistory, Naming, Shared};
pub use workers::{ServeEnd, Worker, WorkerEnd, serve};
