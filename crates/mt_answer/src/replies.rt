//! Answers over HTTP.
ghost use Rattle.std.specs.Prelude.{◌≡◌, IfOk};
ghost use Rattle.mt_answer.specs.Answers.{shown, reply_of, outside_reply};

use crate::bodies::{least_body, outside_body, tree_body, value_body, version_body};
use crate::facts::{Fact, Facts};
use mt_cells::Outside;
use mt_http::Media;
use mt_import::print_import;
use std::alloc::{AllocError, Global};

/// An answer over HTTP: its status, and a body of this type.
#[derive(Debug, Drop)]
pub struct Answer {
    pub status: u16,
    pub media: Media,
    pub body: Vec<u8>,
}

/// The answer to a question outside the bounds.
pub(crate) fn outside_answer(alloc: Global, outside: Outside) -> Result<Answer, AllocError>
    ensures { IfOk result (λ answer. shown answer ≡ outside_reply outside.name outside.number) }
{
    Ok(Answer {
        status: 404,
        media: Media::Json,
        body: outside_body(alloc, outside)?,
    })
}

/// The answer with what was found.
pub(crate) fn found_answer(alloc: Global, facts: Facts) -> Result<Answer, AllocError>
    ensures { IfOk result (λ answer. shown answer ≡ reply_of facts.fact facts.version) }
{
    let version = facts.version;
    let (media, body) = match facts.fact {
        Fact::Value { ask, k, since } => {
            let body = value_body(alloc, &ask, k, since, version)?;
            (Media::Json, body)
        }
        Fact::Tree(nodes) => (Media::Json, tree_body(alloc, &nodes, version)?),
        Fact::Matrix(claim) => (Media::Plain, print_import(alloc, &claim)?),
        Fact::Sheet(text) => (Media::Csv, text),
        Fact::LeastM { q, s, k, m } => (Media::Json, least_body(alloc, q, s, k, m, version)?),
        Fact::Version => (Media::Json, version_body(alloc, version)?),
    };
    Ok(Answer {
        status: 200,
        media,
        body,
    })
}
