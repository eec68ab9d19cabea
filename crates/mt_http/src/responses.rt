//! The bytes of responses.
ghost use Rattle.std.specs.Prelude.{◌≡◌, ◌++◌, length, codes, decimal, string_bytes, None, IfOk};
ghost use Rattle.http.specs.StatusCode.{IsStatusCode, status_text};
ghost use Rattle.mt_http.specs.Responses.{IsStatus, media_text, allow_line, close_line, head_lines, head_text, response, line, memory_text, refusal_text};

use crate::wire::Refusal;
use http::StatusCode;
use std::alloc::{AllocError, Global};

/// The type of a body.
#[derive(Clone, Copy, PartialEq, Eq, Debug)]
pub enum Media {
    Json,
    Csv,
    Plain,
}

/// The methods that an address has.
#[derive(Clone, Copy, PartialEq, Eq, Debug)]
pub enum Allow {
    Get,
    Post,
    Both,
}

/// The bytes of a response: the status line, the media type, the length, the methods that are
/// allowed and the close where there are such, an empty line, and the body. It fails only for want
/// of memory.
#[tactic(auto, unfolding(crate::specs::Responses::response))]
pub fn response_bytes(
    alloc: Global,
    status: u16,
    media: Media,
    allow: Option<Allow>,
    body: &[u8],
    close: bool,
) -> Result<Vec<u8>, AllocError>
    requires { IsStatus status }
    ensures { IfOk result (λ bytes. bytes.items ≡ response status media allow body.now close) }
{
    let mut bytes = head_bytes(alloc, status, media, body.len(), allow, close)?;
    bytes.extend_from_slice(body)?;
    Ok(bytes)
}

fn head_bytes(
    alloc: Global,
    status: u16,
    media: Media,
    len: usize,
    allow: Option<Allow>,
    close: bool,
) -> Result<Vec<u8>, AllocError>
    requires { IsStatus status }
    ensures { IfOk result (λ bytes. bytes.items ≡ head_text status media len allow close) }
{
    let status = status_line(alloc, status)?;
    let head = head_lines(
        alloc,
        status.as_str(),
        media_text(media),
        len,
        allow_line(allow),
        close_line(close),
    )?;
    Ok(head.into_bytes())
}

#[tactic(auto, unfolding(crate::specs::Responses::head_lines))]
fn head_lines(
    alloc: Global,
    status: &str,
    media: &str,
    len: usize,
    allow: &str,
    close: &str,
) -> Result<String, AllocError>
    ensures { IfOk result (λ text. string_bytes text ≡ head_lines status.now media.now len allow.now close.now) }
{
    format!(in alloc;
        "{status}Content-Type: {media}\r\nContent-Length: {len}\r\n{allow}{close}\r\n"
    )
}

fn status_line(alloc: Global, status: u16) -> Result<String, AllocError>
    requires { IsStatus status }
    ensures { IfOk result (λ text. string_bytes text ≡ line (codes "HTTP/1.1 " ++ status_text status)) }
{
    let status = StatusCode::from_u16(status).unwrap();
    format!(in alloc; "HTTP/1.1 {status}\r\n")
}

fn media_text(media: Media) -> &'static str
    ensures { result.now ≡ media_text media }
{
    match media {
        Media::Json => "application/json",
        Media::Csv => "text/csv",
        Media::Plain => "text/plain",
    }
}

fn allow_line(allow: Option<Allow>) -> &'static str
    ensures { result.now ≡ allow_line allow }
{
    match allow {
        None => "",
        Some(Allow::Get) => "Allow: GET\r\n",
        Some(Allow::Post) => "Allow: POST\r\n",
        Some(Allow::Both) => "Allow: GET, POST\r\n",
    }
}

fn close_line(close: bool) -> &'static str
    ensures { result.now ≡ close_line close }
{
    if close { "Connection: close\r\n" } else { "" }
}

/// The response for want of memory, which takes none.
#[tactic(auto, unfolding(crate::specs::Responses::response))]
pub fn memory_response(close: bool) -> &'static [u8]
    ensures { result.now ≡ memory_text close }
{
    if close {
        b"HTTP/1.1 507 Insufficient Storage\r\nContent-Type: application/json\r\nContent-Length: 18\r\nConnection: close\r\n\r\n{\"error\":\"memory\"}"
    } else {
        b"HTTP/1.1 507 Insufficient Storage\r\nContent-Type: application/json\r\nContent-Length: 18\r\n\r\n{\"error\":\"memory\"}"
    }
}

/// The response to what is refused while it is read. The connection closes behind it, and it takes
/// no memory.
#[tactic(auto, unfolding(crate::specs::Responses::response))]
pub fn refusal_response(refusal: Refusal) -> &'static [u8]
    ensures { result.now ≡ refusal_text refusal }
{
    match refusal {
        Refusal::BadRequest => {
            b"HTTP/1.1 400 Bad Request\r\nContent-Type: application/json\r\nContent-Length: 23\r\nConnection: close\r\n\r\n{\"error\":\"bad request\"}"
        }
        Refusal::LengthRequired => {
            b"HTTP/1.1 411 Length Required\r\nContent-Type: application/json\r\nContent-Length: 27\r\nConnection: close\r\n\r\n{\"error\":\"length required\"}"
        }
        Refusal::BodyTooLong => {
            b"HTTP/1.1 413 Payload Too Large\r\nContent-Type: application/json\r\nContent-Length: 39\r\nConnection: close\r\n\r\n{\"error\":\"body too long\",\"limit\":65536}"
        }
        Refusal::HeadTooLong => {
            b"HTTP/1.1 431 Request Header Fields Too Large\r\nContent-Type: application/json\r\nContent-Length: 38\r\nConnection: close\r\n\r\n{\"error\":\"head too long\",\"limit\":8192}"
        }
    }
}
