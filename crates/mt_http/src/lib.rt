//! HTTP/1.1 on a stream of bytes: requests, what their targets ask, and responses.
#![tactic(auto)]

mod buffer;
mod fields;
mod finding;
mod heads;
pub mod laws;
mod questions;
mod reading;
mod responses;
mod routes;
mod wire;

pub use buffer::Buffer;
pub use finding::{Asked, Routes};
pub use reading::read_request;
pub use responses::{Allow, Media, memory_response, refusal_response, response_bytes};
pub use wire::{Got, Refusal, Span, Verb, Wire};

/// The most bytes of a request's head, with the line ends in front of it.
pub const HEAD_LIMIT: usize = 8_192;

/// The most fields of a head.
pub const FIELD_LIMIT: usize = 64;

/// The most bytes of a body.
pub const BODY_LIMIT: u64 = 65_536;

/// How many bytes a buffer has room for: those of a head and of a body.
pub(crate) const CAPACITY: usize = 73_728;

#[cfg(test)]
mod tests;
