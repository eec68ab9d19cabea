//! Replies to single requests.
ghost use Rattle.std.specs.Prelude.{◌≡◌, ◌<◌, ◌↔◌, length, IfOk, IsTrue};
ghost use Rattle.serde_json.specs.Written.{compact_text};
ghost use Rattle.serde_json.specs.View.{view};
ghost use Rattle.mt_cells.specs.Asks.{sizes_of, IsInside};
ghost use Rattle.mt_answer.specs.Answers.{shown};
ghost use Rattle.mt_http.specs.Responses.{IsStatus};
ghost use Rattle.mt_server.specs.Replies.{early_data, early_reply, IsAnswer, short_data, short_reply, outcome_status, outcome_reply, address_data, no_address, bad_method, with_reply, response_text};
ghost use Rattle.mt_server.specs.Turns.{drafted};

use mt_answer::{Answer, answer};
use mt_cells::Question;
use mt_http::{Allow, Media, response_bytes};
use mt_service::Outcome;
use mt_table::Table;
use serde_json::{Value, json};
use std::alloc::{AllocError, Global};

/// The answer to a question over a table that is to have `at_least` events: 409 where it has fewer.
/// What is outside the bounds is said over any table.
pub(crate) fn answer_at(
    alloc: Global,
    table: &Table,
    question: &Question,
    at_least: u64,
) -> Result<Answer, AllocError>
    ensures { IfOk result (λ a. IsAnswer table.now.bounds table.now.rules table.now.events
        question.now at_least (shown a)) }
{
    if is_early(table, question, at_least) {
        return early_answer(alloc, at_least, table.version());
    }
    answer(alloc, table, question)
}

// Whether the question is inside the bounds, and the table has fewer events than it is to have.
#[tactic(auto, using(crate::proofs::ReplyLemmas::not_inside))]
fn is_early(table: &Table, question: &Question, at_least: u64) -> bool
    ensures { IsTrue result ↔ (IsInside table.now.bounds (sizes_of question.now)
        × (length table.now.events < at_least)) }
{
    (table.version() as u64) < at_least && question.outside(table.bounds()).is_none()
}

// The answer over a table with fewer events than were asked for.
fn early_answer(alloc: Global, at_least: u64, version: u32) -> Result<Answer, AllocError>
    ensures { IfOk result (λ a. shown a ≡ early_reply at_least version) }
{
    Ok(Answer {
        status: 409,
        media: Media::Json,
        body: early_body(alloc, at_least, version)?,
    })
}

fn early_body(alloc: Global, at_least: u64, version: u32) -> Result<Vec<u8>, AllocError>
    ensures { IfOk result (λ body. body.items ≡ compact_text (early_data at_least version)) }
{
    early_value(alloc, at_least, version)?.to_vec(alloc)
}

fn early_value(alloc: Global, at_least: u64, version: u32) -> Result<Value, AllocError>
    ensures { IfOk result (λ value. view value ≡ early_data at_least version) }
{
    json!(in alloc; {"at_least": at_least, "error": "not yet", "version": version})
}

/// The answer where a list of `compared` events was compared, and the viewer was shown more.
pub(crate) fn short_answer(alloc: Global, compared: u32, most: u32) -> Result<Answer, AllocError>
    ensures { IfOk result (λ a. shown a ≡ short_reply compared most) }
{
    Ok(Answer {
        status: 500,
        media: Media::Json,
        body: short_body(alloc, compared, most)?,
    })
}

fn short_body(alloc: Global, compared: u32, most: u32) -> Result<Vec<u8>, AllocError>
    ensures { IfOk result (λ body. body.items ≡ compact_text (short_data compared most)) }
{
    short_value(alloc, compared, most)?.to_vec(alloc)
}

fn short_value(alloc: Global, compared: u32, most: u32) -> Result<Value, AllocError>
    ensures { IfOk result (λ value. view value ≡ short_data compared most) }
{
    json!(in alloc; {"error": "front", "front": compared, "shown": most})
}

/// The answer with what came of a text.
pub(crate) fn outcome_answer(alloc: Global, outcome: &Outcome) -> Result<Answer, AllocError>
    ensures { IfOk result (λ a. shown a ≡ outcome_reply outcome.now) }
{
    Ok(Answer {
        status: outcome_status(outcome),
        media: Media::Json,
        body: outcome.json(alloc)?,
    })
}

fn outcome_status(outcome: &Outcome) -> u16
    ensures { result ≡ outcome_status outcome.now }
{
    match outcome {
        Outcome::Accepted { .. }
        | Outcome::Withdrawn { .. }
        | Outcome::Already { .. }
        | Outcome::AlreadyWithdrawn { .. } => 200,
        Outcome::IsWithdrawn { .. } | Outcome::NameTaken { .. } | Outcome::Full => 409,
        Outcome::KeeperFault => 503,
        Outcome::Memory => 507,
        Outcome::Form(_)
        | Outcome::NoImport { .. }
        | Outcome::Range { .. }
        | Outcome::TooManyChoices { .. }
        | Outcome::Dependent { .. } => 422,
    }
}

/// A response before it is bytes: an answer, and the methods of the address where another one was
/// asked for.
#[derive(Debug, Drop)]
pub(crate) struct Draft {
    pub(crate) answer: Answer,
    pub(crate) allow: Option<Allow>,
}

impl Draft {
    /// The response with this answer.
    pub(crate) fn of(answer: Answer) -> Draft
        ensures { drafted result ≡ with_reply (shown answer) }
    {
        Draft {
            answer,
            allow: None,
        }
    }

    /// The response where no address has the target.
    pub(crate) fn no_address(alloc: Global) -> Result<Draft, AllocError>
        ensures { IfOk result (λ d. drafted d ≡ no_address) }
    {
        Ok(Draft::of(Answer {
            status: 404,
            media: Media::Json,
            body: address_body(alloc)?,
        }))
    }

    /// The response where the address has other methods.
    pub(crate) fn bad_method(alloc: Global, allow: Allow) -> Draft
        ensures { drafted result ≡ bad_method allow }
    {
        Draft {
            answer: Answer {
                status: 405,
                media: Media::Json,
                body: Vec::new(alloc),
            },
            allow: Some(allow),
        }
    }

    /// Its bytes, and whether the connection closes behind it. It fails only for want of memory.
    pub(crate) fn bytes(&self, alloc: Global, close: bool) -> Result<Vec<u8>, AllocError>
        requires { IsStatus self.now.answer.status }
        ensures { IfOk result (λ bytes. bytes.items ≡ response_text (drafted self.now) close) }
    {
        let Answer {
            status,
            media,
            body,
        } = &self.answer;
        response_bytes(alloc, *status, *media, self.allow, body.as_slice(), close)
    }
}

fn address_body(alloc: Global) -> Result<Vec<u8>, AllocError>
    ensures { IfOk result (λ body. body.items ≡ compact_text address_data) }
{
    address_value(alloc)?.to_vec(alloc)
}

fn address_value(alloc: Global) -> Result<Value, AllocError>
    ensures { IfOk result (λ value. view value ≡ address_data) }
{
    json!(in alloc; {"error": "no such address"})
}
