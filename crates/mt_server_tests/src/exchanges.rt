//! Requests with their responses, written out from their parts.
use std::alloc::{AllocError, Global};

/// The status of most responses.
pub(crate) const OK: &str = "200 OK";

/// The type of most bodies.
pub(crate) const JSON: &str = "application/json";

/// The method and the target of an import.
pub(crate) const IMPORT: &str = "POST /import";

/// A method and a target, the text behind the head; and of the response its status line behind the
/// version, the type and the body.
pub(crate) type Row = (
    &'static str,
    &'static str,
    &'static str,
    &'static str,
    &'static str,
);

/// A digital (1, 4, 7)-net, whose first rows are those of a cap.
pub(crate) const CAPS7: &str = "net 2 4 7 1 caps7\n\
1001\n0001\n0010\n0000\n1010\n0010\n0001\n0000\n1011\n0011\n0001\n0000\n\
1100\n0100\n0001\n0000\n1101\n0101\n0001\n0000\n1110\n0110\n0001\n0000\n\
1111\n0111\n0001\n0000\n";

/// A request and its response.
#[derive(Drop)]
pub(crate) struct Exchange {
    request: Vec<u8>,
    response: Vec<u8>,
}

fn exchange_of(alloc: Global, row: Row) -> Result<Exchange, AllocError> {
    let (line, text, status, media, body) = row;
    let (sent, given) = (text.len(), body.len());
    let request = format!(in alloc; "{line} HTTP/1.1\r\nContent-Length: {sent}\r\n\r\n{text}")?;
    let response = format!(in alloc;
        "HTTP/1.1 {status}\r\nContent-Type: {media}\r\nContent-Length: {given}\r\n\r\n{body}"
    )?;
    Ok(Exchange {
        request: request.into_bytes(),
        response: response.into_bytes(),
    })
}

pub(crate) fn exchanges_of(alloc: Global, rows: &[Row]) -> Result<Vec<Exchange>, AllocError> {
    let mut exchanges = Vec::new(alloc);
    for row in rows {
        exchanges.push(exchange_of(alloc, *row)?)?;
    }
    Ok(exchanges)
}

/// The requests one after the other.
pub(crate) fn stream_of(alloc: Global, exchanges: &[Exchange]) -> Result<Vec<u8>, AllocError> {
    let mut stream = Vec::new(alloc);
    for exchange in exchanges {
        stream.extend_from_slice(exchange.request.as_slice())?;
    }
    Ok(stream)
}

/// The first responses, and so many bytes of the next.
pub(crate) fn answer_of(
    alloc: Global,
    exchanges: &[Exchange],
    whole: usize,
    more: usize,
) -> Result<Vec<u8>, AllocError> {
    let mut answer = Vec::new(alloc);
    for (i, exchange) in exchanges.iter().enumerate() {
        let response = exchange.response.as_slice();
        if i < whole {
            answer.extend_from_slice(response)?;
        } else if i == whole {
            answer.extend_from_slice(&response[..more.min(response.len())])?;
        }
    }
    Ok(answer)
}

/// How many requests are whole in the first `count` bytes of the stream.
pub(crate) fn whole_in(exchanges: &[Exchange], count: usize) -> usize {
    let mut left = count;
    for (i, exchange) in exchanges.iter().enumerate() {
        let len = exchange.request.len();
        if len > left {
            return i;
        }
        left -= len;
    }
    exchanges.len()
}
