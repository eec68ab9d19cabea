//! The answers to single requests, by a viewer and an office.
ghost use Rattle.std.specs.Prelude.{◌≡◌, List, Option, length, IfOk, IfSome, IfNone, MatchResult};
ghost use Rattle.mt_derive.specs.declared.events.Event.{Event};
ghost use Rattle.mt_http.specs.Reading.{IsIn, request_at};
ghost use Rattle.mt_answer.specs.Answers.{shown};
ghost use Rattle.mt_publish.specs.States.{next_miss};
ghost use Rattle.mt_server.specs.Offices.{before};
ghost use Rattle.mt_server.specs.Replies.{IsAnswer, IsCompared, Response, outcome_reply, with_reply, response_text, memory_reply};
ghost use Rattle.mt_server.specs.Connections.{IsView, IsQuestionAnswered, IsTextAnswered, IsAskedAnswered, IsAnswered, or_zero, keeper_fault, Counted};
ghost use Rattle.mt_server.specs.Turns.{reply_from, response_from, IsLookCounted, IsLooked};

use crate::desk::{Done, Looked};
use crate::office::Office;
use crate::replies::{Draft, answer_at, outcome_answer, short_answer};
use mt_answer::Answer;
use mt_cells::Question;
use mt_derive::Event;
use mt_http::{Asked, Buffer, Routes, Wire};
use mt_publish::Viewer;
use mt_service::Outcome;
use mt_table::Table;
use std::alloc::{AllocError, Global};

/// The bytes of the response to the request that was read into the buffer, and whether the
/// connection closes behind it. It fails only for want of memory.
pub(crate) fn answer_bytes<O: Office>(
    alloc: Global,
    routes: &Routes,
    viewer: &mut Viewer<Table, Event>,
    office: &mut O,
    buffer: &Buffer,
    wire: Wire,
    close: bool,
) -> Result<Vec<u8>, AllocError>
    requires publication { viewer.old.publication ≡ O.publication office.old }
    requires target { IsIn buffer.now.bytes wire.target }
    requires body { IsIn buffer.now.bytes wire.body }
    ensures publication { (viewer.new.publication ≡ viewer.old.publication)
        × (O.publication office.new ≡ O.publication office.old) }
    ensures answered { (response : Response)
        × IsAnswered viewer.old (request_at buffer.now.bytes wire) response viewer.new
        × Counted (keeper_fault response) (O.tally office.old) (O.tally office.new)
        × MatchResult result (λ bytes. bytes.items ≡ response_text response close)
        (λ _. response ≡ with_reply memory_reply) }
    ensures looks { IsLookCounted (O.looks office.old) (O.looks office.new) viewer.old.missed
        viewer.new.missed }
{
    match answer_request(alloc, routes, viewer, office, buffer, wire) {
        Ok(draft) => draft.bytes(alloc, close),
        Err(AllocError) => Err(AllocError),
    }
}

// Answers the request: a question by a view, or by the office where none is given, and an import by
// the office.
fn answer_request<O: Office>(
    alloc: Global,
    routes: &Routes,
    viewer: &mut Viewer<Table, Event>,
    office: &mut O,
    buffer: &Buffer,
    wire: Wire,
) -> Result<Draft, AllocError>
    requires publication { viewer.old.publication ≡ O.publication office.old }
    requires target { IsIn buffer.now.bytes wire.target }
    requires body { IsIn buffer.now.bytes wire.body }
    ensures publication { (viewer.new.publication ≡ viewer.old.publication)
        × (O.publication office.new ≡ O.publication office.old) }
    ensures answered { IsAnswered viewer.old (request_at buffer.now.bytes wire)
        (response_from result) viewer.new }
    ensures counted { Counted (keeper_fault (response_from result)) (O.tally office.old)
        (O.tally office.new) }
    ensures looks { IsLookCounted (O.looks office.old) (O.looks office.new) viewer.old.missed
        viewer.new.missed }
{
    let asked = routes.find(wire.verb, buffer.bytes(wire.target));
    answer_asked(alloc, viewer, office, asked, buffer.bytes(wire.body))
}

fn answer_asked<O: Office>(
    alloc: Global,
    viewer: &mut Viewer<Table, Event>,
    office: &mut O,
    asked: Asked,
    body: &[u8],
) -> Result<Draft, AllocError>
    requires { viewer.old.publication ≡ O.publication office.old }
    ensures publication { (viewer.new.publication ≡ viewer.old.publication)
        × (O.publication office.new ≡ O.publication office.old) }
    ensures answered { IsAskedAnswered viewer.old asked body.now (response_from result) viewer.new }
    ensures counted { Counted (keeper_fault (response_from result)) (O.tally office.old)
        (O.tally office.new) }
    ensures looks { IsLookCounted (O.looks office.old) (O.looks office.new) viewer.old.missed
        viewer.new.missed }
{
    match asked {
        Asked::Get { question, at_least } => {
            let answer = by_question(alloc, viewer, office, &question, or_zero(at_least));
            drafted(answer)
        }
        Asked::Import => drafted(by_import(alloc, viewer, office, body)),
        Asked::NoAddress => Draft::no_address(alloc),
        Asked::BadMethod(allow) => Ok(Draft::bad_method(alloc, allow)),
    }
}

fn drafted(answer: Result<Answer, AllocError>) -> Result<Draft, AllocError>
    ensures { response_from result ≡ with_reply (reply_from answer) }
{
    match answer {
        Ok(answer) => Ok(Draft::of(answer)),
        Err(AllocError) => Err(AllocError),
    }
}

// How many events are asked for.
fn or_zero(at_least: Option<u64>) -> u64
    ensures { result ≡ or_zero at_least }
{
    match at_least {
        Some(at_least) => at_least,
        None => 0,
    }
}

// Answers a question by a view, or by the office where none is given.
fn by_question<O: Office>(
    alloc: Global,
    viewer: &mut Viewer<Table, Event>,
    office: &mut O,
    question: &Question,
    at_least: u64,
) -> Result<Answer, AllocError>
    requires { viewer.old.publication ≡ O.publication office.old }
    ensures publication { (viewer.new.publication ≡ viewer.old.publication)
        × (O.publication office.new ≡ O.publication office.old) }
    ensures answered { IsQuestionAnswered viewer.old question.now at_least (reply_from result)
        viewer.new }
    ensures tally { O.tally office.new ≡ O.tally office.old }
    ensures looks { IsLookCounted (O.looks office.old) (O.looks office.new) viewer.old.missed
        viewer.new.missed }
{
    match by_view(alloc, viewer, question, at_least) {
        Some(answer) => answer,
        None => by_look(alloc, viewer, office, question, at_least),
    }
}

// Answers a question over the list that a view shows.
fn by_view(
    alloc: Global,
    viewer: &mut Viewer<Table, Event>,
    question: &Question,
    at_least: u64,
) -> Option<Result<Answer, AllocError>>
    ensures view { IfSome result (λ _. IsView viewer.old viewer.new.seen viewer.new) }
    ensures answer { IfSome result (λ answer. IfOk answer (λ a.
        IsAnswer viewer.old.publication.base.bounds viewer.old.publication.base.rules
        viewer.new.seen question.now at_least (shown a))) }
    ensures none { IfNone result
        (viewer.new ≡ record viewer.old { missed = next_miss viewer.old.missed }) }
{
    viewer.view(
        |table: &Table| -> Result<Answer, AllocError>
            ensures { IfOk result (λ a. IsAnswer table.now.bounds table.now.rules table.now.events
                question.entry.now at_least (shown a)) }
        { answer_at(alloc, table, question, at_least) },
    )
}

// Answers a question over the office's list, which the viewer learns.
fn by_look<O: Office>(
    alloc: Global,
    viewer: &mut Viewer<Table, Event>,
    office: &mut O,
    question: &Question,
    at_least: u64,
) -> Result<Answer, AllocError>
    requires { viewer.old.publication ≡ O.publication office.old }
    ensures publication { (viewer.new.publication ≡ viewer.old.publication)
        × (O.publication office.new ≡ O.publication office.old) }
    ensures answered { IsLooked viewer.old question.now at_least (reply_from result) viewer.new }
    ensures missed { viewer.new.missed ≡ viewer.old.missed }
    ensures tally { O.tally office.new ≡ O.tally office.old }
    ensures looks { O.looks office.new ≡ next_miss (O.looks office.old) }
{
    let Ok(looked) = office.look(alloc, question, at_least) else {
        return Err(AllocError);
    };
    let Looked { answer, front } = looked;
    let compared = front.len();
    let most = viewer.shown();
    viewer.learn(front);
    compare(alloc, compared, most, answer)
}

// The answer, or both numbers where the list has fewer events than the viewer was shown.
fn compare(alloc: Global, compared: u32, most: u32, answer: Answer) -> Result<Answer, AllocError>
    ensures { IfOk result (λ a. IsCompared compared most (λ r. r ≡ shown answer) (shown a)) }
{
    if compared < most {
        return short_answer(alloc, compared, most);
    }
    Ok(answer)
}

// Imports a text, and the viewer learns the list behind it.
fn by_import<O: Office>(
    alloc: Global,
    viewer: &mut Viewer<Table, Event>,
    office: &mut O,
    text: &[u8],
) -> Result<Answer, AllocError>
    requires { viewer.old.publication ≡ O.publication office.old }
    ensures publication { (viewer.new.publication ≡ viewer.old.publication)
        × (O.publication office.new ≡ O.publication office.old) }
    ensures answered { IsTextAnswered viewer.old text.now (reply_from result) viewer.new }
    ensures missed { viewer.new.missed ≡ viewer.old.missed }
    ensures counted { Counted (keeper_fault (with_reply (reply_from result))) (O.tally office.old)
        (O.tally office.new) }
    ensures looks { O.looks office.new ≡ O.looks office.old }
{
    let Done { outcome, front } = office.import(alloc, text);
    let Some(front) = front else {
        return Err(AllocError);
    };
    let compared = len_before(&outcome, front.len());
    let most = viewer.shown();
    viewer.learn(front);
    outcome_or_short(alloc, compared, most, &outcome)
}

// What came of a text, or both numbers where the list before it has fewer events than the viewer was
// shown.
fn outcome_or_short(
    alloc: Global,
    compared: u32,
    most: u32,
    outcome: &Outcome,
) -> Result<Answer, AllocError>
    ensures compared { IfOk result (λ a. IsCompared compared most
        (λ r. r ≡ outcome_reply outcome.now) (shown a)) }
    ensures fault { IfOk result (λ a. a.status ≡ 503 → outcome.now ≡ Outcome.KeeperFault) }
{
    if compared < most {
        return short_answer(alloc, compared, most);
    }
    outcome_answer(alloc, outcome)
}

// How many events the list had before an import, by how many it has behind it.
fn len_before(outcome: &Outcome, len: u32) -> u32
    ensures { (M : List Event) → length M ≡ len → result ≡ length (before outcome.now M) }
{
    match outcome {
        Outcome::Accepted { .. } | Outcome::Withdrawn { .. } => len.saturating_sub(1),
        _ => len,
    }
}
