//! The question in the parts of a path.
ghost use Rattle.std.specs.Prelude.{◌≡◌, ◌≢◌, ℕ, [], IfSome, IfNone, OnSome};
ghost use Rattle.mt_http.specs.Addresses.{Pairs, ArePartsAscii, IsNumberFirst};
ghost use Rattle.mt_http.specs.Questions.{IsDepthAt, IsAskAt, AreTwoAt, AreThreeAt, IsQuestionAt};

use crate::routes::{Address, next_number};
use matchit::ParamsIter;
use mt_cells::{Ask, Kind, Question};

/// What the parts of a path with this address ask.
pub(crate) fn read_question(
    address: Address,
    parts: &mut ParamsIter<'_, '_, '_>,
) -> Option<Question>
    requires { ArePartsAscii parts.old }
    ensures found { IfSome result (IsQuestionAt address parts.old) }
    ensures none { IfNone result ((q : Question) → ¬ IsQuestionAt address parts.old q) }
{
    match address {
        Address::Value(kind) => match read_ask(kind, parts) {
            Some(ask) => Some(Question::Value(ask)),
            None => None,
        },
        Address::Tree(kind) => match read_ask(kind, parts) {
            Some(ask) => Some(Question::Tree(ask)),
            None => None,
        },
        Address::Matrix(kind) => match read_ask(kind, parts) {
            Some(ask) => Some(Question::Matrix(ask)),
            None => None,
        },
        Address::Table => match read_two(parts) {
            Some((q, m)) => Some(Question::Table { q, m }),
            None => None,
        },
        Address::LeastM => match read_three(parts) {
            Some((q, s, k)) => Some(Question::LeastM { q, s, k }),
            None => None,
        },
        Address::Version => read_none(parts, Question::Version),
        Address::Export => read_none(parts, Question::Export),
        Address::Import => None,
    }
}

fn read_two(parts: &mut ParamsIter<'_, '_, '_>) -> Option<(u64, u64)>
    requires { ArePartsAscii parts.old }
    ensures found { IfSome result (λ x. AreTwoAt parts.old x.0 x.1) }
    ensures none { IfNone result ((a b : ℕ) → ¬ AreTwoAt parts.old a b) }
{
    let first = next_number(parts)?;
    let second = next_number(parts)?;
    match parts.next() {
        None => Some((first, second)),
        Some(_) => None,
    }
}

fn read_three(parts: &mut ParamsIter<'_, '_, '_>) -> Option<(u64, u64, u64)>
    requires { ArePartsAscii parts.old }
    ensures found { IfSome result (λ x. AreThreeAt parts.old x.0 x.1 x.2) }
    ensures none { IfNone result ((a b c : ℕ) → ¬ AreThreeAt parts.old a b c) }
{
    let first = next_number(parts)?;
    let second = next_number(parts)?;
    let third = next_number(parts)?;
    match parts.next() {
        None => Some((first, second, third)),
        Some(_) => None,
    }
}

fn read_none(parts: &mut ParamsIter<'_, '_, '_>, question: Question) -> Option<Question>
    ensures found { IfSome result (λ q. (q ≡ question) × (parts.old ≡ [])) }
    ensures none { IfNone result (parts.old ≢ []) }
{
    match parts.next() {
        None => Some(question),
        Some(_) => None,
    }
}

/// The sizes of a question of this kind, which are all that is left of the path.
pub(crate) fn read_ask(kind: Kind, parts: &mut ParamsIter<'_, '_, '_>) -> Option<Ask>
    requires { ArePartsAscii parts.old }
    ensures found { IfSome result (IsAskAt kind parts.old) }
    ensures none { IfNone result ((a : Ask) → ¬ IsAskAt kind parts.old a) }
{
    let q = next_number(parts)?;
    let m = next_number(parts)?;
    let s = next_number(parts)?;
    let depth = read_depth(kind, parts)?;
    Some(Ask {
        kind,
        q,
        m,
        s,
        depth,
    })
}

// The depth, where the kind has one, and nothing behind it.
fn read_depth(kind: Kind, parts: &mut ParamsIter<'_, '_, '_>) -> Option<u64>
    requires { ArePartsAscii parts.old }
    ensures found { IfSome result (IsDepthAt kind parts.old) }
    ensures none { IfNone result ((d : ℕ) → ¬ IsDepthAt kind parts.old d) }
{
    let depth = match kind {
        Kind::Ooa => next_number(parts)?,
        Kind::Net | Kind::Oa | Kind::Seq => 0,
    };
    match parts.next() {
        None => Some(depth),
        Some(_) => None,
    }
}
