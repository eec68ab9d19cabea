//! A request as spans of a buffer, and what else a stream may have next.
ghost use Rattle.std.specs.Prelude.{◌≡◌};
ghost use Rattle.mt_http.specs.Responses.{refusal_number};

/// The bytes `from..to` of a buffer.
#[derive(Clone, Copy, PartialEq, Eq, Debug)]
pub struct Span {
    pub from: u32,
    pub to: u32,
}

/// The method of a request.
#[derive(Clone, Copy, PartialEq, Eq, Debug)]
pub enum Verb {
    Get,
    Post,
    Other,
}

/// Why a request is refused while it is read. Its connection closes.
#[derive(Clone, Copy, PartialEq, Eq, Debug)]
pub enum Refusal {
    /// 400.
    BadRequest,
    /// 411.
    LengthRequired,
    /// 413.
    BodyTooLong,
    /// 431.
    HeadTooLong,
}

impl Refusal {
    /// The status of the response.
    pub fn number(self) -> u16
        ensures { result ≡ refusal_number self }
    {
        match self {
            Refusal::BadRequest => 400,
            Refusal::LengthRequired => 411,
            Refusal::BodyTooLong => 413,
            Refusal::HeadTooLong => 431,
        }
    }
}

/// A request, whose target and body lie in the buffer that it was read into.
#[derive(Clone, Copy, PartialEq, Eq, Debug)]
pub struct Wire {
    pub verb: Verb,
    pub target: Span,
    pub body: Span,
    /// Whether the request asks that the connection closes after the response.
    pub close: bool,
}

/// What a stream has next.
#[derive(Clone, Copy, PartialEq, Eq, Debug)]
pub enum Got {
    Request(Wire),
    Refused(Refusal),
    /// The stream ends between two requests.
    End,
    /// The stream ends inside a request.
    Cut,
    /// A read failed before an item was whole.
    ReadFault,
}
