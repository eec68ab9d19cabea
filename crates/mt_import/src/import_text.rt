//! Import texts, and what they say.
ghost use Rattle.std.specs.Prelude.{◌≡◌, ℕ, ◌+◌, ◌*◌, ◌<◌, ◌≤◌, List, ◌∷◌, ◌++◌, length, flat_map, All, Some, IfSome, MatchOption, MatchResult, IfOk, OnOk};
ghost use Rattle.mt_system.specs.Statements.{statement_of};
ghost use Rattle.mt_import.specs.declared.headers.Header.{Header};
ghost use Rattle.mt_import.specs.declared.refusals.FormRefused.{FormRefused};
ghost use Rattle.mt_import.specs.declared.import_text.TheConstants.{MOST_BYTES};
ghost use Rattle.mt_import.specs.Lines.{lines_of};
ghost use Rattle.mt_import.specs.Headers.{IsHeader};
ghost use Rattle.mt_import.specs.Texts.{IsRow, digits_of, IsBlankLine, HasBadSource, HasNoRow, HasHeader, IsImport, IsRefusal};
ghost use Rattle.mt_import.specs.Canonical.{header_of};
ghost use Rattle.mt_import.specs.Reading.{StartsWith, TakesSource, IsReading, HasRows, row_lines, TakesRows, LacksRow, LacksBlank};

use crate::headers::{Header, read_line};
use crate::lines::split_line;
use crate::refusals::{FormRefused, ImportRefused, Wanted};
use crate::rows::{is_blank_line, is_row, push_digits};
use crate::source_line::{SourceLine, read_source_line};
use mt_linear::Order;
use mt_system::{Claim, Note, System};
use std::alloc::{AllocError, Global};
use std::marker::Model;

/// How many bytes a text may have.
pub const MOST_BYTES: usize = 65_536;

/// A text that is an import text: its header and its note are known, and its rows can be read.
#[derive(Drop)]
pub struct ImportText<'a> {
    header: Header,
    note: Note,
    // The text from the first row on.
    rows: &'a [u8],
}

impl<'a> Model for ImportText<'a> {
    ghost use Rattle.mt_import.specs.Reading.{Contents, HasRows, said_by};

    ghost Value = { Contents };

    ghost view = { λ t. said_by t.header t.note t.rows.now };

    ghost invariant = { λ t. HasRows t.header t.rows.now };
}

impl<'a> ImportText<'a> {
    /// The text, or why it is no import text: it has more than [`MOST_BYTES`] bytes, or this is the
    /// first refused line.
    pub fn of(bytes: &'a [u8]) -> Result<ImportText<'a>, FormRefused>
        ensures { MatchResult result (λ t. IsImport bytes.now t.header t.note t.digits)
            (IsRefusal bytes.now) }
    {
        let (header, behind) = match read_start(bytes) {
            Ok(start) => start,
            Err(refused) => return Err(refused),
        };
        let (note, rows, first) = match read_source(behind) {
            Ok(source) => source,
            Err(refused) => return Err(refused),
        };
        let rest = pass_rows(rows, &header, first)?;
        read_end(rest, first + count_rows(&header))?;
        Ok(ImportText { header, note, rows })
    }

    /// Its header.
    pub fn header(&self) -> Header
        ensures value { result ≡ self.now.header }
        ensures header { IsHeader self.now.header }
    {
        self.header
    }

    /// Its claim.
    pub fn claim(&self, alloc: Global) -> Result<Claim, AllocError>
        requires columns { self.now.header.m < 256 }
        requires coordinates { self.now.header.s < 256 }
        requires depth { self.now.header.depth < 256 }
        ensures header { IfOk result (λ c. header_of (statement_of c) ≡ self.now.header) }
        ensures note { IfOk result (λ c. c.note ≡ self.now.note) }
        ensures digits { IfOk result (λ c. c.system.digits ≡ self.now.digits) }
    {
        let digits = read_rows(alloc, self.rows, &self.header)?;
        Ok(claim_of(&self.header, digits).noted(self.note))
    }
}

/// The header on line 1, or `None` where there is none. What stands behind line 1 does not matter.
pub fn read_header(bytes: &[u8]) -> Option<Header>
    ensures found { IfSome result (HasHeader bytes.now) }
    ensures only { (h : Header) → HasHeader bytes.now h → result ≡ Some h }
{
    let (line, _) = split_line(bytes)?;
    read_line(line)
}

/// Whether this is an import text. Else it answers why it is none, as [`ImportText::of`] does.
pub fn in_grammar(bytes: &[u8]) -> Result<(), FormRefused>
    ensures { MatchResult result
        (λ _. (h : Header) × (note : List ℕ) × (digits : List ℕ) × IsImport bytes.now h note digits)
        (IsRefusal bytes.now) }
{
    match ImportText::of(bytes) {
        Ok(_) => Ok(()),
        Err(refused) => Err(refused),
    }
}

/// The claim of an import text, or why it is none, as [`ImportText::of`] says.
pub fn read_import(alloc: Global, bytes: &[u8]) -> Result<Claim, ImportRefused>
    requires { (h : Header) → HasHeader bytes.now h → (h.m < 256) × (h.s < 256) × (h.depth < 256) }
    ensures { IsReading bytes.now result }
{
    match ImportText::of(bytes) {
        Ok(text) => Ok(text.claim(alloc)?),
        Err(refused) => Err(ImportRefused::Form(refused)),
    }
}

// The header, and the text behind line 1.
fn read_start(bytes: &[u8]) -> Result<(Header, &[u8]), FormRefused>
    ensures { MatchResult result
        (λ r. (length bytes.now ≤ MOST_BYTES) × (length r.1.now ≤ MOST_BYTES)
        × StartsWith bytes.now r.0 r.1.now)
        (IsRefusal bytes.now) }
{
    if bytes.len() > MOST_BYTES {
        return Err(FormRefused::TooLong);
    }
    let refused = FormRefused::Line {
        line: 1,
        wanted: Wanted::Header,
    };
    let (line, rest) = split_line(bytes).ok_or(refused)?;
    let header = read_line(line).ok_or(refused)?;
    Ok((header, rest))
}

// The note of the source line, or the empty one where there is no source line, and the text from
// the first row on with the number of its first line.
fn read_source(text: &[u8]) -> Result<(Note, &[u8], u32), FormRefused>
    ensures { MatchResult result
        (λ r. (length r.1.now ≤ length text.now) × (r.2 ≤ 3) × TakesSource text.now r.0 r.1.now r.2)
        (λ e. (e ≡ FormRefused.Line 2 Wanted.Source) × HasBadSource (lines_of text.now)) }
{
    let Some((line, behind)) = split_line(text) else {
        return Ok((Note::empty(), text, 2));
    };
    match read_source_line(line) {
        SourceLine::Absent => Ok((Note::empty(), text, 2)),
        SourceLine::Found(note) => Ok((note, behind, 3)),
        SourceLine::Refused => Err(FormRefused::Line {
            line: 2,
            wanted: Wanted::Source,
        }),
    }
}

fn count_rows(header: &Header) -> u32
    requires { IsHeader header.now }
    ensures value { result ≡ header.now.s * header.now.depth }
    ensures small { result < 1000000 }
{
    header.s as u32 * header.depth as u32
}

// The text behind the rows. The first line has this number.
fn pass_rows<'a>(text: &'a [u8], header: &Header, first: u32) -> Result<&'a [u8], FormRefused>
    requires header { IsHeader header.now }
    requires small { first ≤ 3 }
    ensures { MatchResult result
        (λ r. (length r.now ≤ length text.now) × ((rows : List (List ℕ))
        × TakesRows header.now (header.now.s * header.now.depth) text.now r.now rows))
        (LacksRow header.now (header.now.s * header.now.depth) first text.now) }
{
    let mut rest = text;
    for passed in 0..count_rows(header) {
        let (_, behind) = split_row(rest, header, first + passed)?;
        rest = behind;
    }
    Ok(rest)
}

// The digits of the rows.
fn read_rows(alloc: Global, text: &[u8], header: &Header) -> Result<Vec<u8>, AllocError>
    requires { HasRows header.now text.now }
    ensures { IfOk result (λ digits. digits.items ≡ flat_map digits_of (row_lines header.now text.now)) }
{
    let mut digits = Vec::new(alloc);
    let mut rest = text;
    for passed in 0..count_rows(header) {
        let Some((row, behind)) = split_line(rest) else {
            unreachable!()
        };
        push_digits(row, &mut digits)?;
        rest = behind;
    }
    Ok(digits)
}

// The row on the first line, and the text behind it. The line has this number.
fn split_row<'a>(
    text: &'a [u8],
    header: &Header,
    line: u32,
) -> Result<(&'a [u8], &'a [u8]), FormRefused>
    requires { IsHeader header.now }
    ensures { MatchResult result
        (λ r. (length r.1.now ≤ length text.now) × (lines_of text.now ≡ r.0.now ∷ lines_of r.1.now)
        × IsRow header.now.q header.now.m r.0.now)
        (λ e. (e ≡ FormRefused.Line line Wanted.Row)
        × HasNoRow header.now.q header.now.m (lines_of text.now)) }
{
    let refused = FormRefused::Line {
        line,
        wanted: Wanted::Row,
    };
    let (row, behind) = split_line(text).ok_or(refused)?;
    if !is_row(row, header.q as u8, header.m as usize) {
        return Err(refused);
    }
    Ok((row, behind))
}

/// Whether all lines are blank. The first has this number.
pub fn read_end(text: &[u8], first: u32) -> Result<(), FormRefused>
    requires short { length text.now ≤ MOST_BYTES }
    requires small { first < 2000000 }
    ensures { MatchResult result (λ _. All IsBlankLine (lines_of text.now))
        (LacksBlank first text.now) }
{
    let mut rest = text;
    let mut number = first;
    while let Some((line, behind)) = split_line(rest) {
        if !is_blank_line(line) {
            return Err(FormRefused::Line {
                line: number,
                wanted: Wanted::Blank,
            });
        }
        rest = behind;
        number += 1;
    }
    Ok(())
}

// The claim of this header and these digits.
fn claim_of(header: &Header, digits: Vec<u8>) -> Claim
    requires is_header { IsHeader header.now }
    requires columns { header.now.m < 256 }
    requires coordinates { header.now.s < 256 }
    requires depth { header.now.depth < 256 }
    requires size { length digits.items ≡ header.now.s * header.now.depth * header.now.m }
    requires elements { All (λ d. d < header.now.q) digits.items }
    ensures header { header_of (statement_of result) ≡ header.now }
    ensures digits { result.system.digits ≡ digits.items }
{
    let Some(order) = Order::of_number(header.q as u64) else {
        unreachable!()
    };
    let sizes = (header.m as u8, header.s as u8, header.depth as u8);
    let system = System::of_elements(order, sizes.0, sizes.1, sizes.2, digits);
    let Some(claim) = Claim::new(header.form, header.name, header.k as u8, system) else {
        unreachable!()
    };
    claim
}
