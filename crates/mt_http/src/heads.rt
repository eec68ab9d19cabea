//! Where a head ends, and what it says.
ghost use Rattle.std.specs.Prelude.{◌≡◌, ℕ, ◌<◌, ◌≤◌, Some, false, length, take, IfSome, IfNone, IfOk, min};
ghost use Rattle.mt_http.specs.declared.TheConstants.{BODY_LIMIT};
ghost use Rattle.mt_http.specs.Bytes.{blank_len, ends_empty, IsHeadLen, LacksHead};
ghost use Rattle.mt_http.specs.Heads.{Says};
ghost use Rattle.mt_http.specs.Parsed.{ParsesWhole, said_at};
ghost use Rattle.mt_http.specs.Places.{IsHeadAt, LacksHeadIn};

use crate::fields::{body_len, closes, verb_of};
use crate::wire::{Refusal, Verb};
use crate::{FIELD_LIMIT, HEAD_LIMIT};
use httparse::Status;
use httparse::spans::{EMPTY_HEADER_SPAN, HeaderSpan, RequestSpans, parse_request};

/// Where a head stands.
#[derive(Clone, Copy, PartialEq, Eq, Debug)]
pub(crate) struct HeadAt {
    pub start: usize,
    pub end: usize,
}

/// What a head asks for, with the target as offsets.
#[derive(Clone, Copy, PartialEq, Eq, Debug)]
pub(crate) struct HeadingSpans {
    pub verb: Verb,
    pub target_start: usize,
    pub target_end: usize,
    pub len: u64,
    pub close: bool,
}

/// The head behind the first `start` bytes, which are the CR and LF in front, if it ends within the
/// limit. None ends within the first `seen` bytes, so these are not looked at again.
pub(crate) fn find_head(bytes: &[u8], start: usize, seen: usize) -> Option<HeadAt>
    requires start { start ≡ blank_len bytes.now }
    requires within { seen ≤ length bytes.now }
    requires limit { seen ≤ HEAD_LIMIT }
    requires none { LacksHeadIn seen bytes.now }
    ensures found { IfSome result (λ at. IsHeadAt bytes.now at.start at.end) }
    ensures none { IfNone result (LacksHead bytes.now) }
    ensures seen { IfNone result (LacksHeadIn (min (length bytes.now) HEAD_LIMIT) bytes.now) }
{
    let end = bytes.len().min(HEAD_LIMIT);
    if start >= end {
        return None;
    }
    match head_len(&bytes[start..end], seen.saturating_sub(start)) {
        Some(len) => Some(HeadAt {
            start,
            end: start + len,
        }),
        None => None,
    }
}

// Whether a line end and then an empty line end the text.
#[tactic(auto, unfolding(crate::specs::Bytes::ends_empty))]
fn ends_empty(text: &[u8]) -> bool
    ensures { result ≡ ends_empty text.now }
{
    text.ends_with(b"\n\n") || text.ends_with(b"\n\r\n")
}

/// How many CR and LF stand in front, where the first `known` bytes are such.
#[tactic(auto, using(crate::proofs::HeadLemmas::blank_within))]
pub(crate) fn blank_len_from(bytes: &[u8], known: usize) -> usize
    requires { known ≤ blank_len bytes.now }
    ensures { result ≡ blank_len bytes.now }
{
    known + blank_len(&bytes[known..])
}

// How many CR and LF stand in front.
#[tactic(auto, unfolding(crate::specs::Bytes::is_line_end))]
fn blank_len(bytes: &[u8]) -> usize
    ensures { result ≡ blank_len bytes.now }
{
    bytes
        .iter()
        .take_while(|b| **b == b'\r' || **b == b'\n')
        .count()
}

// How many bytes of the text its head has, where it has at least `from`.
fn head_len(text: &[u8], from: usize) -> Option<usize>
    requires within { from ≤ length text.now }
    requires none { (n : ℕ) → n < from → ends_empty (take n text.now) ≡ false }
    ensures found { IfSome result (IsHeadLen text.now) }
    ensures none { IfNone result ((n : ℕ) → n ≤ length text.now → ends_empty (take n text.now) ≡ false) }
{
    for n in from..=text.len() {
        if ends_empty(&text[..n]) {
            return Some(n);
        }
    }
    None
}

/// What the bytes of a head ask for, or why they are refused.
pub(crate) fn read_heading(bytes: &[u8]) -> Result<HeadingSpans, Refusal>
    ensures says { Says bytes.now (said_at bytes.now result) }
    ensures within { IfOk result (λ h. (h.target_start ≤ h.target_end) × (h.target_end ≤ length bytes.now)) }
    ensures len { IfOk result (λ h. h.len ≤ BODY_LIMIT) }
{
    let mut headers = [EMPTY_HEADER_SPAN; FIELD_LIMIT];
    match parse_whole(bytes, &mut headers) {
        Some(spans) => heading_at(bytes, &headers, &spans),
        None => Err(Refusal::BadRequest),
    }
}

// Where the parts of the head are, if the bytes are one whole head.
fn parse_whole(bytes: &[u8], headers: &mut [HeaderSpan]) -> Option<RequestSpans>
    requires { length headers.old ≡ FIELD_LIMIT }
    ensures { ParsesWhole bytes.now headers.new result }
{
    match parse_request(bytes, headers) {
        Ok(Status::Complete(spans)) if spans.len == bytes.len() => Some(spans),
        _ => None,
    }
}

// What the head says, whose parts stand there.
fn heading_at(
    bytes: &[u8],
    headers: &[HeaderSpan],
    spans: &RequestSpans,
) -> Result<HeadingSpans, Refusal>
    requires { ParsesWhole bytes.now headers.now (Some spans.now) }
    ensures says { Says bytes.now (said_at bytes.now result) }
    ensures within { IfOk result (λ h. (h.target_start ≤ h.target_end) × (h.target_end ≤ length bytes.now)) }
    ensures len { IfOk result (λ h. h.len ≤ BODY_LIMIT) }
{
    let fields = &headers[..spans.headers];
    let verb = verb_of(spans.method.of(bytes));
    let len = body_len(verb, bytes, fields)?;
    let close = closes(spans.version, bytes, fields);
    Ok(HeadingSpans {
        verb,
        target_start: spans.path.start,
        target_end: spans.path.end,
        len,
        close,
    })
}
