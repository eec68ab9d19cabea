//! What a target asks.
ghost use Rattle.std.specs.Prelude.{◌≡◌, ◌≢◌, ℕ, ◌^◌, ◌<◌, Option, Some, IfSome, IfNone, IsAscii, MatchOption, length};
ghost use Rattle.std.specs.Option.{option_copied};
ghost use Rattle.matchit.specs.Params.{walk};
ghost use Rattle.mt_http.specs.Addresses.{ArePartsAscii, routes_of};
ghost use Rattle.mt_http.specs.Finding.{mark, path_of, query_of, IsVersion, IsAtLeast, IsFor, Finds, asked_for};

use crate::questions::read_question;
use crate::responses::Allow;
use crate::routes::{Address, make_router};
use crate::wire::Verb;
use matchit::{Params, Router};
use mt_cells::{Question, plain_number};
use std::alloc::{AllocError, Global};
use std::str::from_utf8;

/// What a request asks.
#[derive(Clone, Copy, PartialEq, Eq, Debug)]
pub enum Asked {
    Get {
        question: Question,
        at_least: Option<u64>,
    },
    Import,
    NoAddress,
    BadMethod(Allow),
}

// What a target asks by its method.
#[derive(Clone, Copy, PartialEq, Eq, Debug)]
pub(crate) enum Found {
    Import,
    Get {
        question: Question,
        at_least: Option<u64>,
    },
}

/// The addresses: `/net/{q}/{m}/{s}`, `/oa/..`, `/sequence/..` and `/ooa/{q}/{m}/{s}/{depth}`, these
/// behind `/tree` and `/matrix`, `/table/{q}/{m}`, `/least-m/{q}/{s}/{k}`, `/version` and `/export`
/// for GET, and `/import` for POST.
#[derive(Drop)]
pub struct Routes {
    router: Router<Address>,
    ghost routed: { router ≡ routes_of },
}

impl Routes {
    /// All addresses. It fails where there is no memory for them.
    pub fn new(alloc: Global) -> Result<Routes, AllocError> {
        Ok(Routes {
            router: make_router(alloc)?,
        })
    }

    /// What is asked by this method and this target, which is cut at its first `?`. For GET what
    /// stands behind it has to be `at_least=` and a number. A method other than GET and POST is
    /// refused first, then a target that has no address, then the other method. It takes no memory.
    pub fn find(&self, verb: Verb, target: &[u8]) -> Asked
        ensures { ((f : Option Found) × Finds target.now f × (result ≡ asked_for verb f)) }
    {
        by_method(verb, self.address(target))
    }

    fn address(&self, target: &[u8]) -> Option<Found>
        ensures { Finds target.now result }
    {
        let (path, query) = cut(target);
        match ascii_text(path) {
            Some(text) => match self.router.at(text) {
                Ok(found) => read_found(*found.value, &found.params, query),
                Err(_) => None,
            },
            None => None,
        }
    }
}

fn by_method(verb: Verb, found: Option<Found>) -> Asked
    ensures { result ≡ asked_for verb found }
{
    match found {
        None => match verb {
            Verb::Other => Asked::BadMethod(Allow::Both),
            Verb::Get | Verb::Post => Asked::NoAddress,
        },
        Some(Found::Import) => match verb {
            Verb::Post => Asked::Import,
            Verb::Get | Verb::Other => Asked::BadMethod(Allow::Post),
        },
        Some(Found::Get { question, at_least }) => match verb {
            Verb::Get => Asked::Get { question, at_least },
            Verb::Post | Verb::Other => Asked::BadMethod(Allow::Get),
        },
    }
}

// The target in front of its first question mark, and what stands behind it.
#[tactic(auto, unfolding(crate::specs::Finding::path_of, crate::specs::Finding::query_of))]
fn cut(target: &[u8]) -> (&[u8], Option<&[u8]>)
    ensures path { result.0.now ≡ path_of target.now }
    ensures query { option_copied result.1 ≡ query_of target.now }
{
    match mark(target) {
        Some(at) => (&target[..at], Some(&target[at + 1..])),
        None => (target, None),
    }
}

// The place of the first question mark.
fn mark(target: &[u8]) -> Option<usize>
    ensures place { result ≡ mark target.now }
    ensures within { IfSome result (λ at. at < length target.now) }
{
    target.iter().position(|b| *b == b'?')
}

#[tactic(auto, using(crate::proofs::WordLemmas::utf8_from_ascii))]
fn ascii_text(bytes: &[u8]) -> Option<&str>
    ensures found { IfSome result (λ text. (text.now ≡ bytes.now) × IsAscii bytes.now) }
    ensures none { IfNone result (¬ IsAscii bytes.now) }
{
    if !bytes.is_ascii() {
        return None;
    }
    match from_utf8(bytes) {
        Ok(text) => Some(text),
        Err(_) => None,
    }
}

// What a route asks, whose parameters took these parts.
fn read_found(address: Address, params: &Params<'_, '_>, query: Option<&[u8]>) -> Option<Found>
    requires { ArePartsAscii (walk params.now.pattern.now params.now.text.now params.now.path.now params.now.names.now 0 0) }
    ensures found { IfSome result (IsFor address
        (walk params.now.pattern.now params.now.text.now params.now.path.now params.now.names.now 0 0) (option_copied query.entry)) }
    ensures none { IfNone result ((f : Found) → ¬ IsFor address
        (walk params.now.pattern.now params.now.text.now params.now.path.now params.now.names.now 0 0) (option_copied query.entry) f) }
{
    match address {
        Address::Import => match query {
            None => Some(Found::Import),
            Some(_) => None,
        },
        _ => {
            let mut parts = params.iter();
            match read_question(address, &mut parts) {
                Some(question) => match read_at_least(query) {
                    Some(at_least) => Some(Found::Get { question, at_least }),
                    None => None,
                },
                None => None,
            }
        }
    }
}

fn read_at_least(query: Option<&[u8]>) -> Option<Option<u64>>
    ensures found { IfSome result (IsAtLeast (option_copied query.entry)) }
    ensures none { IfNone result ((n : Option ℕ) → ¬ IsAtLeast (option_copied query.entry) n) }
{
    match query {
        None => Some(None),
        Some(text) => match read_version(text) {
            Some(n) => Some(Some(n)),
            None => None,
        },
    }
}

fn read_version(text: &[u8]) -> Option<u64>
    ensures { MatchOption result ((n : ℕ) → ¬ IsVersion text.now n) (IsVersion text.now) }
{
    match text.strip_prefix(b"at_least=".as_slice()) {
        Some(digits) => match ascii_text(digits) {
            Some(word) => plain_number(word),
            None => None,
        },
        None => None,
    }
}
