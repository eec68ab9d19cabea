//! Whole connections, in pieces of several sizes.
use crate::connections::{Case, assert_served, bounds, empty};
use mt_server::Ended;
use std::alloc::Global;
use std::process::Abort;
use std::sync::Wait;
use std::test::Fail;

// The most bytes that a read gives.
const PIECES: [usize; 4] = [1, 2, 7, 8192];

const QUESTIONS_AND_AN_IMPORT: &[u8] = b"GET /net/2/4/7 HTTP/1.1\r\n\r\n\
POST /import HTTP/1.1\r\nContent-Length: 158\r\n\r\n\
net 2 4 7 1 caps7\n\
1001\n0001\n0010\n0000\n1010\n0010\n0001\n0000\n1011\n0011\n0001\n0000\n\
1100\n0100\n0001\n0000\n1101\n0101\n0001\n0000\n1110\n0110\n0001\n0000\n\
1111\n0111\n0001\n0000\n\
GET /net/2/4/7?at_least=1 HTTP/1.1\r\n\r\n\
GET /version?at_least=2 HTTP/1.1\r\n\r\n";

const THEIR_ANSWERS: &[u8] =
    b"HTTP/1.1 200 OK\r\nContent-Type: application/json\r\nContent-Length: 76\r\n\r\n\
{\"depth\":4,\"k\":2,\"kind\":\"net\",\"m\":4,\"q\":2,\"s\":7,\"since\":0,\"t\":2,\"version\":0}\
HTTP/1.1 200 OK\r\nContent-Type: application/json\r\nContent-Length: 59\r\n\r\n\
{\"import\":1,\"name\":\"caps7\",\"outcome\":\"accepted\",\"raised\":5}\
HTTP/1.1 200 OK\r\nContent-Type: application/json\r\nContent-Length: 76\r\n\r\n\
{\"depth\":4,\"k\":3,\"kind\":\"net\",\"m\":4,\"q\":2,\"s\":7,\"since\":1,\"t\":1,\"version\":1}\
HTTP/1.1 409 Conflict\r\nContent-Type: application/json\r\nContent-Length: 44\r\n\r\n\
{\"at_least\":2,\"error\":\"not yet\",\"version\":1}";

#[test]
fn questions_and_an_import(rt: HostRuntime) -> Result<(), Fail> {
    let (alloc, stream, answers) = (rt.alloc(), QUESTIONS_AND_AN_IMPORT, THEIR_ANSWERS);
    for piece in PIECES {
        let case = Case::steady(stream, piece, answers, Ended::Done);
        assert_served(&rt, alloc, bounds()?, empty(alloc), &[case])?;
    }
    Ok(())
}

// Streams with what is answered and how the connection ends.
const HOSTILE: [(&[u8], &[u8], Ended); 17] = [
    (b"", b"", Ended::Done),
    (b"\r\n\r\n", b"", Ended::Done),
    (b"GET /version HTTP/1.1\r\n", b"", Ended::Cut),
    (&[b'a'; 8191], b"", Ended::Cut),
    (
        &[b'a'; 8192],
        b"HTTP/1.1 431 Request Header Fields Too Large\r\nContent-Type: application/json\r\n\
Content-Length: 38\r\nConnection: close\r\n\r\n{\"error\":\"head too long\",\"limit\":8192}",
        Ended::Close,
    ),
    (
        b"bad\r\n\r\n",
        b"HTTP/1.1 400 Bad Request\r\nContent-Type: application/json\r\nContent-Length: 23\r\n\
Connection: close\r\n\r\n{\"error\":\"bad request\"}",
        Ended::Close,
    ),
    (
        b"POST /import HTTP/1.1\r\n\r\n",
        b"HTTP/1.1 411 Length Required\r\nContent-Type: application/json\r\nContent-Length: 27\r\n\
Connection: close\r\n\r\n{\"error\":\"length required\"}",
        Ended::Close,
    ),
    (
        b"POST /import HTTP/1.1\r\nTransfer-Encoding: chunked\r\n\r\n",
        b"HTTP/1.1 411 Length Required\r\nContent-Type: application/json\r\nContent-Length: 27\r\n\
Connection: close\r\n\r\n{\"error\":\"length required\"}",
        Ended::Close,
    ),
    (
        b"POST /import HTTP/1.1\r\nContent-Length: 65537\r\n\r\n",
        b"HTTP/1.1 413 Payload Too Large\r\nContent-Type: application/json\r\nContent-Length: 39\r\n\
Connection: close\r\n\r\n{\"error\":\"body too long\",\"limit\":65536}",
        Ended::Close,
    ),
    (
        b"POST /import HTTP/1.1\r\nContent-Length: 5\r\nContent-Length: 6\r\n\r\n",
        b"HTTP/1.1 400 Bad Request\r\nContent-Type: application/json\r\nContent-Length: 23\r\n\
Connection: close\r\n\r\n{\"error\":\"bad request\"}",
        Ended::Close,
    ),
    (
        b"POST /import HTTP/1.1\r\nContent-Length: 12345678901234567890\r\n\r\n",
        b"HTTP/1.1 400 Bad Request\r\nContent-Type: application/json\r\nContent-Length: 23\r\n\
Connection: close\r\n\r\n{\"error\":\"bad request\"}",
        Ended::Close,
    ),
    (
        b"POST /import HTTP/1.1\r\nContent-Length: 5\r\n\r\n1234",
        b"",
        Ended::Cut,
    ),
    (
        b"PUT /import HTTP/1.1\r\nContent-Length: 0\r\n\r\n",
        b"HTTP/1.1 405 Method Not Allowed\r\nContent-Type: application/json\r\nContent-Length: 0\r\n\
Allow: POST\r\n\r\n",
        Ended::Done,
    ),
    (
        b"PUT /nowhere HTTP/1.1\r\n\r\n",
        b"HTTP/1.1 405 Method Not Allowed\r\nContent-Type: application/json\r\nContent-Length: 0\r\n\
Allow: GET, POST\r\n\r\n",
        Ended::Done,
    ),
    (
        b"POST /version HTTP/1.1\r\nContent-Length: 0\r\n\r\n",
        b"HTTP/1.1 405 Method Not Allowed\r\nContent-Type: application/json\r\nContent-Length: 0\r\n\
Allow: GET\r\n\r\n",
        Ended::Done,
    ),
    (
        b"GET /net/2/5/3?at_least=9 HTTP/1.1\r\n\r\n",
        b"HTTP/1.1 404 Not Found\r\nContent-Type: application/json\r\nContent-Length: 41\r\n\r\n\
{\"error\":\"outside\",\"name\":\"m\",\"number\":5}",
        Ended::Done,
    ),
    (
        b"GET /version HTTP/1.0\r\n\r\n",
        b"HTTP/1.1 200 OK\r\nContent-Type: application/json\r\nContent-Length: 13\r\n\
Connection: close\r\n\r\n{\"version\":0}",
        Ended::Close,
    ),
];

// A connection comes to this in pieces of every size.
fn assert_in_pieces<R: Wait + Abort>(
    rt: &R,
    alloc: Global,
    stream: &[u8],
    answer: &[u8],
    end: Ended,
) -> Result<(), Fail> {
    let cases = PIECES.map(|piece| Case::steady(stream, piece, answer, end));
    assert_served(rt, alloc, bounds()?, empty(alloc), &cases)
}

#[test]
fn hostile_streams(rt: HostRuntime) -> Result<(), Fail> {
    for (stream, answer, end) in HOSTILE {
        assert_in_pieces(&rt, rt.alloc(), stream, answer, end)?;
    }
    Ok(())
}

const OPEN_ANSWER: &[u8] = b"HTTP/1.1 200 OK\r\nContent-Type: application/json\r\n\
Content-Length: 13\r\n\r\n{\"version\":0}";

const LAST_ANSWER: &[u8] = b"HTTP/1.1 200 OK\r\nContent-Type: application/json\r\n\
Content-Length: 13\r\nConnection: close\r\n\r\n{\"version\":0}";

// A connection is closed behind its 1,000th response.
#[test]
fn more_requests_than_a_connection_has(rt: HostRuntime) -> Result<(), Fail> {
    let (rt, alloc) = (&rt, rt.alloc());
    let stream = b"GET /version HTTP/1.1\r\n\r\n".repeat(alloc, 1001)?;
    let mut answer = OPEN_ANSWER.repeat(alloc, 999)?;
    answer.extend_from_slice(LAST_ANSWER)?;
    assert_in_pieces(rt, alloc, &stream, &answer, Ended::Budget)
}
