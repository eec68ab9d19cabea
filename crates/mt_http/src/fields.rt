//! What the fields of a head say.
ghost use Rattle.std.specs.Prelude.{◌≡◌, ◌≤◌, true, length, All, IfOk, codes};
ghost use Rattle.std.specs.List.{list_any, list_all};
ghost use Rattle.std.specs.Char.{is_ascii_digit};
ghost use Rattle.std.specs.Str.Parse.{digits_value};
ghost use Rattle.httparse.specs.Spans.{IsHeaderWithin, header_bytes};
ghost use Rattle.mt_http.specs.Fields.{is_same, is_length_text, one_length, values_of, verb_of, length_for, body_len, closes};
ghost use Rattle.mt_http.specs.Lengths.{length_of, same_number, agreed_on, next_found};
ghost use Rattle.mt_http.specs.Parsed.{fields_at};

use crate::BODY_LIMIT;
use crate::wire::{Refusal, Verb};
use httparse::spans::HeaderSpan;

pub(crate) fn verb_of(method: &[u8]) -> Verb
    ensures { result ≡ verb_of method.now }
{
    if method == b"GET".as_slice() {
        Verb::Get
    } else if method == b"POST".as_slice() {
        Verb::Post
    } else {
        Verb::Other
    }
}

// Whether the texts are one but for the case of letters.
#[tactic(auto, unfolding(crate::specs::Fields::is_same))]
fn is_same(text: &[u8], other: &[u8]) -> bool
    ensures { result ≡ is_same text.now other.now }
{
    text.eq_ignore_ascii_case(other)
}

#[tactic(auto, unfolding(crate::specs::Fields::body_len))]
pub(crate) fn body_len(verb: Verb, bytes: &[u8], headers: &[HeaderSpan]) -> Result<u64, Refusal>
    requires { All (IsHeaderWithin (length bytes.now)) headers.now }
    ensures value { result ≡ body_len verb (fields_at bytes.now headers.now) }
    ensures limit { IfOk result (λ n. n ≤ BODY_LIMIT) }
{
    if has_coding(bytes, headers) {
        return Err(Refusal::LengthRequired);
    }
    let found = one_length(bytes, headers)?;
    length_for(verb, found)
}

// The length, by what Content-Length says.
fn length_for(verb: Verb, found: Option<u64>) -> Result<u64, Refusal>
    ensures value { result ≡ length_for verb (Ok found) }
    ensures limit { IfOk result (λ n. n ≤ BODY_LIMIT) }
{
    match found {
        Some(n) if n <= BODY_LIMIT => Ok(n),
        Some(_) => Err(Refusal::BodyTooLong),
        None => match verb {
            Verb::Post => Err(Refusal::LengthRequired),
            Verb::Get | Verb::Other => Ok(0),
        },
    }
}

fn has_coding(bytes: &[u8], headers: &[HeaderSpan]) -> bool
    requires { All (IsHeaderWithin (length bytes.now)) headers.now }
    ensures { result ≡ list_any (λ f. is_same f.0 (codes "transfer-encoding")) (fields_at bytes.now headers.now) }
{
    for header in headers {
        if is_same(header.name.of(bytes), b"transfer-encoding") {
            return true;
        }
    }
    false
}

// The one number that the values of Content-Length write.
fn one_length(bytes: &[u8], headers: &[HeaderSpan]) -> Result<Option<u64>, Refusal>
    requires { All (IsHeaderWithin (length bytes.now)) headers.now }
    ensures { result ≡ one_length (values_of (codes "content-length") (fields_at bytes.now headers.now)) }
{
    let mut found = None;
    for header in headers {
        match next_found(found, bytes, header) {
            Ok(next) => found = next,
            Err(refusal) => return Err(refusal),
        }
    }
    Ok(found)
}

// What is found behind one more field.
fn next_found(found: Option<u64>, bytes: &[u8], header: &HeaderSpan) -> Result<Option<u64>, Refusal>
    requires { IsHeaderWithin (length bytes.now) header.now }
    ensures { result ≡ next_found found (header_bytes bytes.now header.now) }
{
    if is_same(header.name.of(bytes), b"content-length") {
        Ok(Some(agreed(found, header.value.of(bytes))?))
    } else {
        Ok(found)
    }
}

// The number of one more value.
fn agreed(found: Option<u64>, value: &[u8]) -> Result<u64, Refusal>
    ensures { result ≡ agreed_on found value.now }
{
    match read_length(value) {
        Some(n) => same_number(found, n),
        None => Err(Refusal::BadRequest),
    }
}

fn same_number(found: Option<u64>, n: u64) -> Result<u64, Refusal>
    ensures { result ≡ same_number found n }
{
    match found {
        None => Ok(n),
        Some(m) if n == m => Ok(m),
        Some(_) => Err(Refusal::BadRequest),
    }
}

// The number of 1 to 19 decimal digits.
#[tactic(auto, unfolding(crate::specs::Fields::is_length_text))]
fn read_length(text: &[u8]) -> Option<u64>
    ensures { result ≡ length_of text.now }
{
    if is_length_text(text) {
        Some(digits_value(text))
    } else {
        None
    }
}

#[tactic(auto, unfolding(crate::specs::Fields::is_length_text))]
fn is_length_text(text: &[u8]) -> bool
    ensures { result ≡ is_length_text text.now }
{
    if text.is_empty() || text.len() > 19 {
        return false;
    }
    are_digits(text)
}

fn are_digits(text: &[u8]) -> bool
    ensures { result ≡ list_all is_ascii_digit text.now }
{
    text.iter().all(|b| b.is_ascii_digit())
}

#[tactic(auto, unfolding(crate::specs::Fields::is_length_text))]
fn digits_value(text: &[u8]) -> u64
    requires { is_length_text text.now ≡ true }
    ensures { result ≡ digits_value 10 text.now }
{
    let mut value: u64 = 0;
    for digit in text {
        value = value * 10 + u64::from(*digit - b'0');
    }
    value
}

#[tactic(auto, unfolding(crate::specs::Fields::closes))]
pub(crate) fn closes(minor: u8, bytes: &[u8], headers: &[HeaderSpan]) -> bool
    requires { All (IsHeaderWithin (length bytes.now)) headers.now }
    ensures { result ≡ closes minor (fields_at bytes.now headers.now) }
{
    minor == 0 || says_close(bytes, headers)
}

fn says_close(bytes: &[u8], headers: &[HeaderSpan]) -> bool
    requires { All (IsHeaderWithin (length bytes.now)) headers.now }
    ensures { result ≡ list_any (λ v. is_same v (codes "close"))
        (values_of (codes "connection") (fields_at bytes.now headers.now)) }
{
    for header in headers {
        if is_same(header.name.of(bytes), b"connection")
            && is_same(header.value.of(bytes), b"close")
        {
            return true;
        }
    }
    false
}
