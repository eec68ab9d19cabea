//! A value that grows beside its readers: one publisher, and viewers that wait for nobody.
#![tactic(auto)]

mod board;
mod front;
mod growing;
mod handing;
mod publisher;
mod role;
#[cfg(test)]
mod tests;
mod viewer;

pub use front::Front;
pub use growing::Growing;
pub use publisher::{Opened, Publisher, open};
pub use viewer::Viewer;
