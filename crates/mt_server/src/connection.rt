//! One connection, by a viewer and an office.
ghost use Rattle.std.specs.Prelude.{◌≡◌, ◌≢◌, ◌⊎◌, ◌+◌, ◌^◌, ◌-◌, ◌≤◌, ◌++◌, ◌||◌, ◌==◌};
ghost use Rattle.mt_io.specs.Faults.{Rose};
ghost use Rattle.mt_io.specs.Told.{WhereTold};
ghost use Rattle.mt_http.specs.Buffers.{ahead};
ghost use Rattle.mt_http.specs.Reading.{IsIn, IsGot, HasReadCause, is_fault, request_at};
ghost use Rattle.mt_server.specs.Connections.{IsConnection};
ghost use Rattle.mt_server.specs.Turns.{IsLookCounted, next_after, IsSent, IsItem, IsRequestServed, IsTurn};

use crate::office::Office;
use crate::requests::answer_bytes;
use mt_derive::Event;
use mt_http::{Buffer, Got, Routes, Wire, memory_response, read_request, refusal_response};
use mt_io::{Failed, Link};
use mt_publish::Viewer;
use mt_table::Table;
use std::alloc::{AllocError, Global};

/// The most responses on one connection.
pub const MOST_RESPONSES: u32 = 1_000;

/// How a connection ends.
#[derive(Clone, Copy, PartialEq, Eq, Debug)]
pub enum Ended {
    /// The stream ended between two requests.
    Done,
    /// A response before the last that there may be closed the connection.
    Close,
    /// The stream ended inside a request.
    Cut,
    /// As many responses were written as there may be.
    Budget,
    /// A read failed.
    Read,
    /// A write failed.
    Write,
    /// Want of memory, before the first read.
    Memory,
}

/// What follows a turn.
#[derive(Clone, Copy, PartialEq, Eq, Debug)]
pub(crate) enum Next {
    Open,
    Ended(Ended),
}

/// Answers the requests of a connection in order, up to [`MOST_RESPONSES`]. A question goes to the
/// viewer, and to the office only where no view is given; an import goes to the office, and the viewer
/// learns the list behind it. What can't be read as a request is refused. The connection closes behind
/// a refusal, behind the response to a request that asks for it, and behind the last response that
/// there may be; each of them says so. Want of memory is answered too, but for that before the first
/// read.
pub fn serve_connection<O: Office, L: Link>(
    alloc: Global,
    viewer: &mut Viewer<Table, Event>,
    office: &mut O,
    link: &mut L,
) -> Ended
    requires { viewer.old.publication ≡ O.publication office.old }
    ensures publication { (viewer.new.publication ≡ viewer.old.publication)
        × (O.publication office.new ≡ O.publication office.old) }
    ensures served { WhereTold (L.left link.old) (L.left link.new) (λ stream left.
        IsConnection viewer.old viewer.new stream left (L.written link.old) (L.written link.new)
        (O.tally office.old) (O.tally office.new) result) }
    ensures looks { (O.looks office.new + viewer.old.missed ≤ O.looks office.old + viewer.new.missed)
        ⊎ (2 ^ 64 - 1 ≤ viewer.new.missed) }
    ensures read_fault { (L.Source.faults link.old ≤ L.Source.faults link.new)
        × (result ≡ Ended.Read → Rose (L.Source.faults link.old) (L.Source.faults link.new)) }
    ensures write_fault { (L.Sink.faults link.old ≤ L.Sink.faults link.new)
        × (result ≡ Ended.Write → Rose (L.Sink.faults link.old) (L.Sink.faults link.new)) }
{
    let Ok(mut buffer) = Buffer::new(alloc) else {
        return Ended::Memory;
    };
    let Ok(routes) = Routes::new(alloc) else {
        return Ended::Memory;
    };
    let mut number = 1;
    'turns: loop {
        match serve_next(alloc, &routes, viewer, office, link, &mut buffer, number) {
            Next::Open => number += 1,
            Next::Ended(ended) => return ended,
        }
    }
}

// One request or refusal and its response, or an end.
fn serve_next<O: Office, L: Link>(
    alloc: Global,
    routes: &Routes,
    viewer: &mut Viewer<Table, Event>,
    office: &mut O,
    link: &mut L,
    buffer: &mut Buffer,
    number: u32,
) -> Next
    requires { viewer.old.publication ≡ O.publication office.old }
    ensures publication { (viewer.new.publication ≡ viewer.old.publication)
        × (O.publication office.new ≡ O.publication office.old) }
    ensures turn { WhereTold (L.left link.old) (L.left link.new) (λ before after.
        IsTurn result number viewer.old viewer.new (ahead buffer.old ++ before) buffer.new after
        (L.written link.old) (L.written link.new) (O.tally office.old) (O.tally office.new)) }
    ensures looks { IsLookCounted (O.looks office.old) (O.looks office.new) viewer.old.missed
        viewer.new.missed }
    ensures read_fault { (L.Source.faults link.old ≤ L.Source.faults link.new)
        × (result ≡ Next.Ended Ended.Read → Rose (L.Source.faults link.old) (L.Source.faults link.new)) }
    ensures write_fault { (L.Sink.faults link.old ≤ L.Sink.faults link.new)
        × (result ≡ Next.Ended Ended.Write → Rose (L.Sink.faults link.old) (L.Sink.faults link.new)) }
    ensures budget { result ≡ Next.Open → number ≢ MOST_RESPONSES }
{
    match read_item(link, buffer) {
        Got::Request(wire) => {
            serve_request(alloc, routes, viewer, office, link, buffer, wire, number)
        }
        Got::Refused(refusal) => write_response(link, refusal_response(refusal), true, number),
        Got::End => Next::Ended(Ended::Done),
        Got::Cut => Next::Ended(Ended::Cut),
        Got::ReadFault => Next::Ended(Ended::Read),
    }
}

// Reads the next item, and writes nothing.
fn read_item<L: Link>(link: &mut L, buffer: &mut Buffer) -> Got
    ensures item { WhereTold (L.left link.old) (L.left link.new)
        (λ before after. IsItem result (ahead buffer.old ++ before) buffer.new after) }
    ensures got { IsGot result buffer.new (L.left link.new) }
    ensures cause { HasReadCause (L.Source.faults link.old) (L.Source.faults link.new)
        (is_fault result) }
    ensures written { L.written link.new ≡ L.written link.old }
    ensures faults { L.Sink.faults link.new ≡ L.Sink.faults link.old }
{
    read_request(link, buffer)
}

// Answers a request, and writes the response with this number.
fn serve_request<O: Office, L: Link>(
    alloc: Global,
    routes: &Routes,
    viewer: &mut Viewer<Table, Event>,
    office: &mut O,
    link: &mut L,
    buffer: &Buffer,
    wire: Wire,
    number: u32,
) -> Next
    requires publication { viewer.old.publication ≡ O.publication office.old }
    requires target { IsIn buffer.now.bytes wire.target }
    requires body { IsIn buffer.now.bytes wire.body }
    ensures publication { (viewer.new.publication ≡ viewer.old.publication)
        × (O.publication office.new ≡ O.publication office.old) }
    ensures sent { IsRequestServed result number viewer.old viewer.new
        (request_at buffer.now.bytes wire) (L.written link.old) (L.written link.new)
        (O.tally office.old) (O.tally office.new) }
    ensures looks { IsLookCounted (O.looks office.old) (O.looks office.new) viewer.old.missed
        viewer.new.missed }
    ensures left { L.left link.new ≡ L.left link.old }
    ensures faults { L.Source.faults link.new ≡ L.Source.faults link.old }
    ensures write_fault { (L.Sink.faults link.old ≤ L.Sink.faults link.new)
        × (result ≡ Next.Ended Ended.Write → Rose (L.Sink.faults link.old) (L.Sink.faults link.new)) }
    ensures budget { result ≡ Next.Open → number ≢ MOST_RESPONSES }
    ensures read { result ≢ Next.Ended Ended.Read }
{
    let close = closes(wire.close, number);
    match answer_bytes(alloc, routes, viewer, office, buffer, wire, close) {
        Ok(bytes) => write_response(link, bytes.as_slice(), close, number),
        Err(AllocError) => write_response(link, memory_response(close), close, number),
    }
}

// Writes the response with this number, and reads nothing.
fn write_response<L: Link>(link: &mut L, bytes: &[u8], close: bool, number: u32) -> Next
    ensures sent { IsSent result close number (L.written link.old) (L.written link.new) bytes.now }
    ensures left { L.left link.new ≡ L.left link.old }
    ensures faults { L.Source.faults link.new ≡ L.Source.faults link.old }
    ensures write_fault { (L.Sink.faults link.old ≤ L.Sink.faults link.new)
        × (result ≡ Next.Ended Ended.Write → Rose (L.Sink.faults link.old) (L.Sink.faults link.new)) }
    ensures budget { result ≡ Next.Open → number ≢ MOST_RESPONSES }
    ensures read { result ≢ Next.Ended Ended.Read }
{
    match link.write_all(bytes) {
        Ok(()) => next_after(close, number),
        Err(Failed) => Next::Ended(Ended::Write),
    }
}

// Whether the connection closes behind the response with this number.
fn closes(close: bool, number: u32) -> bool
    ensures { result ≡ (close || (number == MOST_RESPONSES)) }
{
    close || number == MOST_RESPONSES
}

// What follows a response that was written.
fn next_after(close: bool, number: u32) -> Next
    ensures next { result ≡ next_after close number }
    ensures budget { result ≡ Next.Open → number ≢ MOST_RESPONSES }
    ensures no_fault { (result ≢ Next.Ended Ended.Read) × (result ≢ Next.Ended Ended.Write) }
{
    if number == MOST_RESPONSES {
        Next::Ended(Ended::Budget)
    } else if close {
        Next::Ended(Ended::Close)
    } else {
        Next::Open
    }
}
