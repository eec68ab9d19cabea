use super::*;
use mt_cells::{Ask, Kind, Question};
use mt_io::{MemorySource, Source};
use std::alloc::{AllocError, Global};
use std::process::Abort;
use std::test::Fail;

fn value(kind: Kind, q: u64, m: u64, s: u64, depth: u64) -> Question {
    Question::Value(Ask {
        kind,
        q,
        m,
        s,
        depth,
    })
}

#[test]
fn targets_have_addresses(rt: HostRuntime) -> Result<(), Fail> {
    let routes = Routes::new(rt.alloc())?;
    let rows: [(&[u8], Option<u64>, Question); 6] = [
        (b"/net/2/4/7", None, value(Kind::Net, 2, 4, 7, 0)),
        (
            b"/sequence/2/4/7?at_least=1",
            Some(1),
            value(Kind::Seq, 2, 4, 7, 0),
        ),
        (b"/ooa/2/4/7/3", None, value(Kind::Ooa, 2, 4, 7, 3)),
        (
            b"/table/9/18446744073709551615",
            None,
            Question::Table {
                q: 9,
                m: 18446744073709551615,
            },
        ),
        (
            b"/least-m/2/4/0",
            None,
            Question::LeastM { q: 2, s: 4, k: 0 },
        ),
        (b"/version?at_least=0", Some(0), Question::Version),
    ];
    for (target, at_least, question) in rows {
        let asked = Asked::Get { question, at_least };
        assert_eq!(rt; routes.find(Verb::Get, target), asked);
        for verb in [Verb::Post, Verb::Other] {
            assert_eq!(rt; routes.find(verb, target), Asked::BadMethod(Allow::Get));
        }
    }
    assert_eq!(rt; routes.find(Verb::Post, b"/import"), Asked::Import);
    for verb in [Verb::Get, Verb::Other] {
        let asked = Asked::BadMethod(Allow::Post);
        assert_eq!(rt; routes.find(verb, b"/import"), asked);
    }
    Ok(())
}

#[test]
fn other_targets_have_none(rt: HostRuntime) -> Result<(), Fail> {
    let routes = Routes::new(rt.alloc())?;
    let targets: [&[u8]; 12] = [
        b"/nowhere",
        b"/import?",
        b"/version?",
        b"/version?at_least=",
        b"/version?at_least=01",
        b"/version?at_least=1&x",
        b"/net/2/4",
        b"/net/2/4/7/",
        b"/net/2/04/7",
        b"/net/2/+4/7",
        b"/table/9/18446744073709551616",
        b"/net/2/\xc3\xa9/7",
    ];
    for target in targets {
        for verb in [Verb::Get, Verb::Post] {
            assert_eq!(rt; routes.find(verb, target), Asked::NoAddress);
        }
        let asked = Asked::BadMethod(Allow::Both);
        assert_eq!(rt; routes.find(Verb::Other, target), asked);
    }
    Ok(())
}

// Each kind of response, as docs/FORMATS.md has it.
#[test]
fn responses_are_written(rt: HostRuntime) -> Result<(), Fail> {
    let rows: [(u16, Media, Option<Allow>, &[u8], bool, &[u8]); 5] = [
        (
            200,
            Media::Json,
            None,
            b"{\"version\":0}",
            false,
            b"HTTP/1.1 200 OK\r\nContent-Type: application/json\r\nContent-Length: 13\r\n\r\n{\"version\":0}",
        ),
        (
            200,
            Media::Csv,
            None,
            b"s,net_k\n",
            true,
            b"HTTP/1.1 200 OK\r\nContent-Type: text/csv\r\nContent-Length: 8\r\nConnection: close\r\n\r\ns,net_k\n",
        ),
        (
            200,
            Media::Plain,
            None,
            b"ooa 2 1 1 1 1 mint\n1\n",
            false,
            b"HTTP/1.1 200 OK\r\nContent-Type: text/plain\r\nContent-Length: 21\r\n\r\nooa 2 1 1 1 1 mint\n1\n",
        ),
        (
            405,
            Media::Json,
            Some(Allow::Post),
            b"",
            false,
            b"HTTP/1.1 405 Method Not Allowed\r\nContent-Type: application/json\r\nContent-Length: 0\r\nAllow: POST\r\n\r\n",
        ),
        (
            405,
            Media::Json,
            Some(Allow::Both),
            b"",
            true,
            b"HTTP/1.1 405 Method Not Allowed\r\nContent-Type: application/json\r\nContent-Length: 0\r\nAllow: GET, POST\r\nConnection: close\r\n\r\n",
        ),
    ];
    for (status, media, allow, body, close, wanted) in rows {
        let bytes = response_bytes(rt.alloc(), status, media, allow, body, close)?;
        assert_eq!(rt; bytes.as_slice(), wanted);
    }
    Ok(())
}

// The first line of each other status.
#[test]
fn statuses_have_their_phrases(rt: HostRuntime) -> Result<(), Fail> {
    let rows: [(u16, &[u8]); 6] = [
        (404, b"HTTP/1.1 404 Not Found\r\n"),
        (409, b"HTTP/1.1 409 Conflict\r\n"),
        (422, b"HTTP/1.1 422 Unprocessable Entity\r\n"),
        (500, b"HTTP/1.1 500 Internal Server Error\r\n"),
        (503, b"HTTP/1.1 503 Service Unavailable\r\n"),
        (507, b"HTTP/1.1 507 Insufficient Storage\r\n"),
    ];
    for (status, line) in rows {
        let bytes = response_bytes(rt.alloc(), status, Media::Json, None, b"{}", false)?;
        assert!(rt; bytes.as_slice().starts_with(line));
    }
    Ok(())
}

// What takes no memory is what `response_bytes` makes.
#[test]
fn fixed_responses_are_the_same(rt: HostRuntime) -> Result<(), Fail> {
    let rows: [(Refusal, &[u8]); 4] = [
        (Refusal::BadRequest, b"{\"error\":\"bad request\"}"),
        (Refusal::LengthRequired, b"{\"error\":\"length required\"}"),
        (
            Refusal::BodyTooLong,
            b"{\"error\":\"body too long\",\"limit\":65536}",
        ),
        (
            Refusal::HeadTooLong,
            b"{\"error\":\"head too long\",\"limit\":8192}",
        ),
    ];
    for (refusal, body) in rows {
        let status = refusal.number();
        let bytes = response_bytes(rt.alloc(), status, Media::Json, None, body, true)?;
        assert_eq!(rt; refusal_response(refusal), bytes.as_slice());
    }
    for close in [false, true] {
        let body = b"{\"error\":\"memory\"}";
        let bytes = response_bytes(rt.alloc(), 507, Media::Json, None, body, close)?;
        assert_eq!(rt; memory_response(close), bytes.as_slice());
    }
    Ok(())
}

// A request that is wanted: the method, the target, the body, and whether the connection closes.
type Wanted<'a> = (Verb, &'a [u8], &'a [u8], bool);

// Reads one request.
fn expect_request<S: Source>(
    rt: &impl Abort,
    source: &mut S,
    buffer: &mut Buffer,
    wanted: &Wanted<'_>,
) {
    let Got::Request(wire) = read_request(source, buffer) else {
        panic!(rt; "no request");
    };
    assert_eq!(rt; wire.verb, wanted.0);
    assert_eq!(rt; buffer.bytes(wire.target), wanted.1);
    assert_eq!(rt; buffer.bytes(wire.body), wanted.2);
    assert_eq!(rt; wire.close, wanted.3);
}

// Reads a stream in pieces: these requests, and then what is no request.
fn expect_stream(
    rt: &impl Abort,
    alloc: Global,
    stream: &[u8],
    requests: &[Wanted<'_>],
    end: Got,
) -> Result<(), AllocError> {
    for piece in [1, 7, 8192] {
        let mut source = MemorySource::new(stream.to_vec(alloc)?, piece, Vec::new(alloc));
        let mut buffer = Buffer::new(alloc)?;
        for wanted in requests {
            expect_request(rt, &mut source, &mut buffer, wanted);
        }
        assert_eq!(rt; read_request(&mut source, &mut buffer), end);
    }
    Ok(())
}

#[test]
fn requests_are_read_in_pieces(rt: HostRuntime) -> Result<(), Fail> {
    let stream =
        b"\r\n\nGET /version HTTP/1.1\r\nHost: here\r\n\r\nPOST /import HTTP/1.1\ncontent-length: 005\nContent-Length:5 \n\nabc\r\n\n\nPUT /a?b HTTP/1.0\r\n\r\nGET / HTTP/1.1\r\nConnection: CLOSE\r\n\r\n\r\n";
    let requests: [Wanted<'_>; 4] = [
        (Verb::Get, b"/version", b"", false),
        (Verb::Post, b"/import", b"abc\r\n", false),
        (Verb::Other, b"/a?b", b"", true),
        (Verb::Get, b"/", b"", true),
    ];
    expect_stream(&rt, rt.alloc(), stream, &requests, Got::End)?;
    Ok(())
}

// Streams whose first item is no request. Of two reasons to refuse, the earlier one decides.
#[test]
fn streams_end_or_are_refused(rt: HostRuntime) -> Result<(), Fail> {
    let rows: [(&[u8], Got); 16] = [
        (b"", Got::End),
        (b"\r\n\r\n", Got::End),
        (b"GET /version HTTP/1.1\r\n", Got::Cut),
        (b"bad\r\n\r\n", Got::Refused(Refusal::BadRequest)),
        (
            b"GET  /version HTTP/1.1\r\n\r\n",
            Got::Refused(Refusal::BadRequest),
        ),
        (
            b"bad\r\nTransfer-Encoding: chunked\r\n\r\n",
            Got::Refused(Refusal::BadRequest),
        ),
        (
            b"POST /import HTTP/1.1\r\n\r\n",
            Got::Refused(Refusal::LengthRequired),
        ),
        (
            b"POST /import HTTP/1.1\r\nTransfer-Encoding: chunked\r\n\r\n",
            Got::Refused(Refusal::LengthRequired),
        ),
        (
            b"GET / HTTP/1.1\r\nContent-Length: x\r\ntransfer-encoding: gzip\r\n\r\n",
            Got::Refused(Refusal::LengthRequired),
        ),
        (
            b"POST /import HTTP/1.1\r\nContent-Length: 5\r\nContent-Length: 6\r\n\r\nabcdef",
            Got::Refused(Refusal::BadRequest),
        ),
        (
            b"POST /import HTTP/1.1\r\nContent-Length: 65537\r\nContent-Length: +5\r\n\r\n",
            Got::Refused(Refusal::BadRequest),
        ),
        (
            b"POST /import HTTP/1.1\r\nContent-Length: 00000000000000000005\r\n\r\nabcde",
            Got::Refused(Refusal::BadRequest),
        ),
        (
            b"GET / HTTP/1.1\r\nContent-Length:\r\n\r\n",
            Got::Refused(Refusal::BadRequest),
        ),
        (
            b"POST /import HTTP/1.1\r\nContent-Length: 65537\r\n\r\n",
            Got::Refused(Refusal::BodyTooLong),
        ),
        (
            b"GET / HTTP/1.1\r\nContent-Length: 9999999999999999999\r\n\r\n",
            Got::Refused(Refusal::BodyTooLong),
        ),
        (
            b"POST /import HTTP/1.1\r\nContent-Length: 5\r\n\r\nabcd",
            Got::Cut,
        ),
    ];
    for (stream, end) in rows {
        expect_stream(&rt, rt.alloc(), stream, &[], end)?;
    }
    Ok(())
}

// A head of 8,192 bytes that comes a byte at a time is read in time linear in it.
#[test]
fn heads_have_a_limit(rt: HostRuntime) -> Result<(), Fail> {
    for (byte, short) in [(b'a', Got::Cut), (b'\n', Got::End)] {
        let too_long = vec![in rt.alloc(); byte; HEAD_LIMIT]?;
        let end = Got::Refused(Refusal::HeadTooLong);
        expect_stream(&rt, rt.alloc(), too_long.as_slice(), &[], end)?;
        expect_stream(&rt, rt.alloc(), &too_long.as_slice()[1..], &[], short)?;
    }
    Ok(())
}

// A read that fails takes nothing, and the next call goes on.
#[test]
fn reads_fail_in_turn(rt: HostRuntime) -> Result<(), Fail> {
    for failing in 1..=6 {
        let bytes = b"POST /import HTTP/1.1\r\nContent-Length: 3\r\n\r\nabc".to_vec(rt.alloc())?;
        let failing = [failing].to_vec(rt.alloc())?;
        let mut source = MemorySource::new(bytes, 8, failing);
        let mut buffer = Buffer::new(rt.alloc())?;
        assert_eq!(rt; read_request(&mut source, &mut buffer), Got::ReadFault);
        let wanted = (Verb::Post, b"/import".as_slice(), b"abc".as_slice(), false);
        expect_request(&rt, &mut source, &mut buffer, &wanted);
        assert_eq!(rt; read_request(&mut source, &mut buffer), Got::End);
    }
    Ok(())
}
