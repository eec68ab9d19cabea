//! Requests, read from a source in whatever pieces it gives.
ghost use Rattle.std.specs.Prelude.{◌≡◌, ℕ, ◌<◌, ◌≤◌, List, Option, ◌++◌, length, false};
ghost use Rattle.mt_io.specs.Told.{WhereTold, NoneLeft};
ghost use Rattle.mt_http.specs.Awaiting.{is_awaited_fault, IsAwaited, is_filled_fault, IsFilled};
ghost use Rattle.mt_http.specs.Buffers.{ahead, Moves};
ghost use Rattle.mt_http.specs.Bytes.{blank_len, LacksHead};
ghost use Rattle.mt_http.specs.Places.{IsHeadAt};
ghost use Rattle.mt_http.specs.Reading.{HasReadCause, is_fault, IsGot, IsFirst};

use crate::buffer::Buffer;
use crate::heads::{HeadAt, blank_len_from, find_head, read_heading};
use crate::wire::{Got, Refusal, Span, Wire};
use crate::{CAPACITY, HEAD_LIMIT};
use mt_io::{Failed, Source};

/// What is there of a head.
#[derive(Clone, Copy, PartialEq, Eq, Debug)]
pub(crate) enum Awaited {
    Head(HeadAt),
    TooLong,
    End,
    Cut,
    ReadFault,
}

/// Whether enough bytes are there.
#[derive(Clone, Copy, PartialEq, Eq, Debug)]
pub(crate) enum Filled {
    Whole,
    Short,
    ReadFault,
}

/// Reads the next item of the stream, which is the bytes that the buffer holds ahead and then those
/// left of the source. The request's spans lie in the buffer, which keeps what was read too far for
/// the next call. A body whose request is refused is not waited for. It takes no memory.
///
/// Source: RFC 9112, in the profile of `specs/Items` and `specs/Fields`.
pub fn read_request<S: Source>(source: &mut S, buffer: &mut Buffer) -> Got
    ensures moves { Moves (ahead buffer.old) (S.left source.old) buffer.new.bytes (S.left source.new) }
    ensures got { IsGot result buffer.new (S.left source.new) }
    ensures first { WhereTold (S.left source.old) (S.left source.new)
        (λ before after. IsFirst result (ahead buffer.old ++ before) buffer.new after) }
    ensures cause { HasReadCause (S.faults source.old) (S.faults source.new) (is_fault result) }
    ensures rest { S.rest source.new ≡ S.rest source.old }
{
    read_next(source, buffer)
}

// The same, but for what the stream as a whole begins with.
fn read_next<S: Source>(source: &mut S, buffer: &mut Buffer) -> Got
    ensures moves { Moves (ahead buffer.old) (S.left source.old) buffer.new.bytes (S.left source.new) }
    ensures got { IsGot result buffer.new (S.left source.new) }
    ensures cause { HasReadCause (S.faults source.old) (S.faults source.new) (is_fault result) }
    ensures rest { S.rest source.new ≡ S.rest source.old }
{
    buffer.drop_spent();
    match await_head(source, buffer) {
        Awaited::Head(at) => read_behind(source, buffer, at),
        Awaited::TooLong => Got::Refused(Refusal::HeadTooLong),
        Awaited::End => Got::End,
        Awaited::Cut => Got::Cut,
        Awaited::ReadFault => Got::ReadFault,
    }
}

// Reads until a head is there, or cannot come.
fn await_head<S: Source>(source: &mut S, buffer: &mut Buffer) -> Awaited
    ensures moves { Moves buffer.old.bytes (S.left source.old) buffer.new.bytes (S.left source.new) }
    ensures spent { buffer.new.spent ≡ buffer.old.spent }
    ensures awaited { IsAwaited result buffer.new.bytes (S.left source.new) }
    ensures cause { HasReadCause (S.faults source.old) (S.faults source.new) (is_awaited_fault result) }
    ensures rest { S.rest source.new ≡ S.rest source.old }
{
    let mut start = 0;
    let mut seen = 0;
    'turns: loop {
        let held = buffer.held();
        start = blank_len_from(held, start);
        if let Some(at) = find_head(held, start, seen) {
            return Awaited::Head(at);
        }
        if held.len() >= HEAD_LIMIT {
            return Awaited::TooLong;
        }
        seen = held.len();
        match buffer.read_more(source) {
            Ok(0) => return ended(buffer, start),
            Ok(_) => {}
            Err(Failed) => return Awaited::ReadFault,
        }
    }
}

// What is there of a head where the stream ends with none in the bytes held, of which the first
// `start` are the CR and LF in front.
fn ended(buffer: &Buffer, start: usize) -> Awaited
    requires { start ≡ blank_len buffer.now.bytes }
    ensures ended { (left : Option (List ℕ)) → NoneLeft left → length buffer.now.bytes < HEAD_LIMIT
        → LacksHead buffer.now.bytes → IsAwaited result buffer.now.bytes left }
    ensures fault { is_awaited_fault result ≡ false }
{
    if start == buffer.held().len() {
        Awaited::End
    } else {
        Awaited::Cut
    }
}

// Reads until so many bytes are held.
fn await_bytes<S: Source>(source: &mut S, buffer: &mut Buffer, count: usize) -> Filled
    requires { count ≤ CAPACITY }
    ensures moves { Moves buffer.old.bytes (S.left source.old) buffer.new.bytes (S.left source.new) }
    ensures spent { buffer.new.spent ≡ buffer.old.spent }
    ensures filled { IsFilled result count buffer.new.bytes (S.left source.new) }
    ensures cause { HasReadCause (S.faults source.old) (S.faults source.new) (is_filled_fault result) }
    ensures rest { S.rest source.new ≡ S.rest source.old }
{
    'turns: while buffer.held().len() < count {
        match buffer.read_more(source) {
            Ok(0) => return Filled::Short,
            Ok(_) => {}
            Err(Failed) => return Filled::ReadFault,
        }
    }
    Filled::Whole
}

// Reads the body behind a head.
fn read_behind<S: Source>(source: &mut S, buffer: &mut Buffer, at: HeadAt) -> Got
    requires { IsHeadAt buffer.old.bytes at.start at.end }
    ensures moves { Moves buffer.old.bytes (S.left source.old) buffer.new.bytes (S.left source.new) }
    ensures got { IsGot result buffer.new (S.left source.new) }
    ensures cause { HasReadCause (S.faults source.old) (S.faults source.new) (is_fault result) }
    ensures rest { S.rest source.new ≡ S.rest source.old }
{
    let heading = match read_heading(&buffer.held()[at.start..at.end]) {
        Ok(heading) => heading,
        Err(refusal) => return Got::Refused(refusal),
    };
    let end = at.end + heading.len as usize;
    match await_bytes(source, buffer, end) {
        Filled::Whole => {
            buffer.spend(end);
            Got::Request(Wire {
                verb: heading.verb,
                target: span(
                    at.start + heading.target_start,
                    at.start + heading.target_end,
                ),
                body: span(at.end, end),
                close: heading.close,
            })
        }
        Filled::Short => Got::Cut,
        Filled::ReadFault => Got::ReadFault,
    }
}

fn span(from: usize, to: usize) -> Span
    requires ordered { from ≤ to }
    requires within { to ≤ CAPACITY }
    ensures { result ≡ record { from = from; to = to } }
{
    Span {
        from: from as u32,
        to: to as u32,
    }
}
