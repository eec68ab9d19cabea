//! Headers.
ghost use Rattle.std.specs.Prelude.{◌≡◌, ◌≢◌, ℕ, ◌<◌, ◌≤◌, List, ◌∷◌, ◌++◌, map, length, take, decimal, MatchOption, IsTrue, ◌↔◌};
ghost use Rattle.mt_system.specs.declared.claims.Form.{Form};
ghost use Rattle.mt_import.specs.declared.headers.Header.{Header};
ghost use Rattle.mt_system.specs.Forms.{form_word};
ghost use Rattle.mt_import.specs.Lines.{words_of};
ghost use Rattle.mt_import.specs.Headers.{numbers_by, IsHeader, IsHeaderLine};
ghost use Rattle.mt_import.specs.HeaderParts.{count_of, AreNumbers, IsPlain, IsHeaderOf};

use crate::lines::split_word;
use mt_linear::Order;
use mt_system::{Form, Name};

/// What the first line of an import text says: the form of the claim, the order `q` of the field,
/// the sizes of the system, the claimed strength and its name.
///
/// A net and a sequence have `depth = m`, and their `t` is `m - k`.
#[derive(Clone, Copy)]
pub struct Header {
    pub form: Form,
    pub q: u16,
    pub m: u16,
    pub s: u16,
    pub depth: u16,
    pub k: u16,
    pub name: Name,
}

/// The header on this line, or `None` where it is no header.
pub fn read_line(line: &[u8]) -> Option<Header>
    ensures { MatchOption result ((h : Header) → ¬ IsHeaderLine line.now h)
        (λ h. IsHeaderLine line.now h) }
{
    let (word, line) = split_word(line)?;
    let form = read_form(word)?;
    let (numbers, line) = read_numbers(line, count_numbers(form))?;
    let (word, line) = split_word(line)?;
    let name = Name::of(word)?;
    let None = split_word(line) else {
        return None;
    };
    header_of(form, &numbers, name)
}

// The form with this word.
fn read_form(word: &[u8]) -> Option<Form>
    ensures { MatchOption result ((f : Form) → word.now ≢ form_word f)
        (λ f. word.now ≡ form_word f) }
{
    match word {
        b"ooa" => Some(Form::Ooa),
        b"net" => Some(Form::Net),
        b"seq" => Some(Form::Seq),
        _ => None,
    }
}

// How many numbers a header of this form has.
fn count_numbers(form: Form) -> usize
    ensures { result ≡ count_of form }
{
    match form {
        Form::Ooa => 5,
        Form::Net | Form::Seq => 4,
    }
}

// So many numbers, in an array with zeros behind them, and the line behind the numbers.
fn read_numbers(line: &[u8], count: usize) -> Option<([u16; 5], &[u8])>
    requires { count ≤ 5 }
    ensures { MatchOption result
        ((ns : List ℕ) (words : List (List ℕ)) → AreNumbers count ns → words_of line.now ≢ map decimal ns ++ words)
        (λ r. AreNumbers 5 r.0
        × (words_of line.now ≡ map decimal (take count r.0) ++ words_of r.1.now)) }
{
    let mut numbers = [0u16; 5];
    let mut rest = line;
    for i in 0..count {
        let (word, behind) = split_word(rest)?;
        numbers[i] = read_number(word)?;
        rest = behind;
    }
    Some((numbers, rest))
}

// The number below 1000 with these digits.
fn read_number(word: &[u8]) -> Option<u16>
    ensures { MatchOption result ((n : ℕ) → n < 1000 → word.now ≢ decimal n)
        (λ n. (n < 1000) × (word.now ≡ decimal n)) }
{
    if !is_plain(word) {
        return None;
    }
    let mut number = 0u16;
    for byte in word {
        if !byte.is_ascii_digit() {
            return None;
        }
        number = number * 10 + (*byte - b'0') as u16;
    }
    Some(number)
}

// Whether there are one to three bytes, the first of them a zero only where it is alone.
fn is_plain(word: &[u8]) -> bool
    ensures { IsTrue result ↔ IsPlain word.now }
{
    match word {
        [] => false,
        [first, rest @ ..] => rest.is_empty() || (*first != b'0' && rest.len() <= 2),
    }
}

// The header of these parts, where they fit one another.
fn header_of(form: Form, numbers: &[u16; 5], name: Name) -> Option<Header>
    requires { AreNumbers 5 numbers.now }
    ensures { MatchOption result
        ((h : Header) → ¬ IsHeaderOf form (take (count_of form) numbers.now) name h)
        (λ h. IsHeaderOf form (take (count_of form) numbers.now) name h) }
{
    let [q, m, s, fourth, fifth] = *numbers;
    let (depth, k) = match form {
        Form::Ooa => (fourth, fifth),
        Form::Net | Form::Seq => (m, m.checked_sub(fourth)?),
    };
    Order::of_number(q as u64)?;
    if m == 0 || s == 0 || depth == 0 || depth > m || k > m {
        return None;
    }
    Some(Header {
        form,
        q,
        m,
        s,
        depth,
        k,
        name,
    })
}
