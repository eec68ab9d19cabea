//! The lines that tell what comes of a text, and why records are refused.
ghost use Rattle.std.specs.Prelude.{◌≡◌, [], ◌∷◌, ◌++◌, codes, decimal, flat_map, IfOk, OnOk};
ghost use Rattle.mt_cells.specs.Texts.{part_text};
ghost use Rattle.mt_service.specs.declared.gate.TheConstants.{MOST_CHOICES};
ghost use Rattle.mt_derive.specs.declared.imports.TheConstants.{MOST_IMPORTS};
ghost use Rattle.mt_service.specs.declared.opening.OpenRefused.TheVariants as refused;
ghost use Rattle.mt_service.specs.Texts.{form_text, failing_part, comma_list, import_text, outcome_text, open_text};

use crate::gate::MOST_CHOICES;
use crate::opening::{OpenRefused, Why};
use crate::outcomes::Outcome;
use mt_cells::Part;
use mt_derive::{MOST_EVENTS, MOST_IMPORTS};
use mt_import::{FormRefused, MOST_BYTES, Wanted};
use mt_system::{Form, Name};
use std::alloc::{AllocError, Global};

impl Outcome {
    /// The line that is shown for it, with its line feed. It is empty for the keeper's fault and for
    /// want of memory.
    pub fn line(&self, alloc: Global) -> Result<Vec<u8>, AllocError>
        ensures { IfOk result (λ text. text.items ≡ outcome_text self.now) }
    {
        match self {
            Self::Form(refused) => form_line(alloc, *refused),
            Self::NoImport { name } => name_line(alloc, b"refused: no import ", name),
            Self::AlreadyWithdrawn { number, name } => import_line(
                alloc,
                b"already withdrawn ",
                *number,
                name,
                b"\n",
            ),
            Self::Range {
                name,
                number,
                limit,
            } => range_line(alloc, *name, *number, *limit),
            Self::TooManyChoices { count } => choices_line(alloc, *count),
            Self::Already { number, name } => import_line(alloc, b"already ", *number, name, b"\n"),
            Self::IsWithdrawn { number, name } => is_withdrawn_line(alloc, *number, name),
            Self::NameTaken { number, name } => taken_line(alloc, *number, name),
            Self::Full => full_line(alloc),
            Self::Dependent {
                form,
                part,
                choice,
                coefficients,
            } => depends(alloc, *form, *part, choice.sizes(), coefficients.digits()),
            Self::KeeperFault | Self::Memory => Ok(Vec::new(alloc)),
            Self::Accepted {
                number,
                name,
                raised,
                ..
            } => change_line(alloc, b"accepted ", *number, name, b": raised ", *raised),
            Self::Withdrawn {
                number,
                name,
                lowered,
                ..
            } => change_line(alloc, b"withdrawn ", *number, name, b": lowered ", *lowered),
        }
    }
}

impl OpenRefused {
    /// The line that is shown for it, with its line feed. It is empty for the keeper's fault and for
    /// want of memory.
    pub fn line(&self, alloc: Global) -> Result<Vec<u8>, AllocError>
        ensures { IfOk result (λ text. text.items ≡ open_text self.now) }
    {
        match self {
            OpenRefused::TooMany(count) => {
                let text = format!(in alloc; "store: {count} records, more than {MOST_EVENTS}\n")?;
                Ok(text.into_bytes())
            }
            OpenRefused::BadRecord { number, why } => bad_line(alloc, *number, *why),
            OpenRefused::KeeperFault | OpenRefused::Memory => Ok(Vec::new(alloc)),
        }
    }
}

// The line for a bad record.
fn bad_line(alloc: Global, number: u32, why: Why) -> Result<Vec<u8>, AllocError>
    ensures { IfOk result (λ text. text.items ≡ open_text (refused.BadRecord number why)) }
{
    let mut text = Vec::from_slice(alloc, b"store: record ")?;
    push_number(alloc, &mut text, number as u64)?;
    text.extend_from_slice(b": ")?;
    text.extend_from_slice(match why {
        Why::Form => b"form",
        Why::Unknown => b"unknown",
        Why::Withdrawn => b"withdrawn",
        Why::Range => b"range",
        Why::Choices => b"choices",
        Why::Name => b"name",
        Why::Full => b"full",
        Why::Dependent => b"dependent",
    })?;
    text.push(b'\n')?;
    Ok(text)
}

// The words, and a name.
fn name_line(alloc: Global, words: &[u8], name: &Name) -> Result<Vec<u8>, AllocError>
    ensures { IfOk result (λ text. text.items ≡ words.now ++ name.now ++ 10 ∷ []) }
{
    let mut text = Vec::from_slice(alloc, words)?;
    text.extend_from_slice(name.bytes())?;
    text.push(b'\n')?;
    Ok(text)
}

// The words, an import's number and name, and the end of the line.
fn import_line(
    alloc: Global,
    words: &[u8],
    number: u32,
    name: &Name,
    end: &[u8],
) -> Result<Vec<u8>, AllocError>
    ensures { IfOk result (λ text. text.items
        ≡ words.now ++ import_text number name.now ++ end.now) }
{
    let mut text = Vec::from_slice(alloc, words)?;
    push_number(alloc, &mut text, number as u64)?;
    text.push(b' ')?;
    text.extend_from_slice(name.bytes())?;
    text.extend_from_slice(end)?;
    Ok(text)
}

// The words, an import's number and name, other words, and how many values changed.
fn change_line(
    alloc: Global,
    words: &[u8],
    number: u32,
    name: &Name,
    others: &[u8],
    count: u32,
) -> Result<Vec<u8>, AllocError>
    ensures { IfOk result (λ text. text.items
        ≡ words.now ++ import_text number name.now ++ others.now ++ decimal count ++ 10 ∷ []) }
{
    let mut text = import_line(alloc, words, number, name, others)?;
    push_number(alloc, &mut text, count as u64)?;
    text.push(b'\n')?;
    Ok(text)
}

fn is_withdrawn_line(alloc: Global, number: u32, name: &Name) -> Result<Vec<u8>, AllocError>
    ensures { IfOk result (λ text. text.items
        ≡ codes "refused: import " ++ import_text number name.now ++ codes " is withdrawn\n") }
{
    import_line(alloc, b"refused: import ", number, name, b" is withdrawn\n")
}

fn taken_line(alloc: Global, number: u32, name: &Name) -> Result<Vec<u8>, AllocError>
    ensures { IfOk result (λ text. text.items
        ≡ codes "refused: name " ++ name.now ++ codes " is taken by import " ++ decimal number
        ++ 10 ∷ []) }
{
    let mut text = Vec::from_slice(alloc, b"refused: name ")?;
    text.extend_from_slice(name.bytes())?;
    text.extend_from_slice(b" is taken by import ")?;
    push_number(alloc, &mut text, number as u64)?;
    text.push(b'\n')?;
    Ok(text)
}

fn full_line(alloc: Global) -> Result<Vec<u8>, AllocError>
    ensures { IfOk result (λ text. text.items
        ≡ codes "refused: full at " ++ decimal MOST_IMPORTS ++ codes " imports\n") }
{
    Ok(format!(in alloc; "refused: full at {MOST_IMPORTS} imports\n")?.into_bytes())
}

fn form_line(alloc: Global, refused: FormRefused) -> Result<Vec<u8>, AllocError>
    ensures { IfOk result (λ text. text.items ≡ form_text refused) }
{
    let FormRefused::Line { line, wanted } = refused else {
        let text = format!(in alloc; "refused: more than {MOST_BYTES} bytes\n")?;
        return Ok(text.into_bytes());
    };
    let mut text = Vec::from_slice(alloc, b"refused: line ")?;
    push_number(alloc, &mut text, line as u64)?;
    text.extend_from_slice(match wanted {
        Wanted::Header => b" is no header\n",
        Wanted::Source => b" is no source\n",
        Wanted::Row => b" is no row\n",
        Wanted::Blank => b" is not blank\n",
    })?;
    Ok(text)
}

fn range_line(alloc: Global, name: Part, number: u8, limit: u8) -> Result<Vec<u8>, AllocError>
    ensures { IfOk result (λ text. text.items
        ≡ codes "refused: " ++ part_text name ++ 32 ∷ decimal number ++ codes " is over " ++ decimal limit ++ 10 ∷ []) }
{
    Ok(format!(in alloc; "refused: {name} {number} is over {limit}\n")?.into_bytes())
}

fn choices_line(alloc: Global, count: u64) -> Result<Vec<u8>, AllocError>
    ensures { IfOk result (λ text. text.items
        ≡ codes "refused: " ++ decimal count ++ codes " choices, more than " ++ decimal MOST_CHOICES
        ++ 10 ∷ []) }
{
    let text = format!(in alloc; "refused: {count} choices, more than {MOST_CHOICES}\n")?;
    Ok(text.into_bytes())
}

// The line for the first dependent choice: its sizes, and the coefficients of its rows.
fn depends(
    alloc: Global,
    form: Form,
    part: u8,
    sizes: &[u8],
    coefficients: &[u8],
) -> Result<Vec<u8>, AllocError>
    ensures { IfOk result (λ text. text.items
        ≡ codes "refused: " ++ failing_part form part ++ codes "choice " ++ comma_list sizes.now
        ++ codes " depends with " ++ comma_list coefficients.now ++ 10 ∷ []) }
{
    let mut text = Vec::from_slice(alloc, b"refused: ")?;
    push_part(alloc, &mut text, form, part)?;
    text.extend_from_slice(b"choice ")?;
    push_list(alloc, &mut text, sizes)?;
    text.extend_from_slice(b" depends with ")?;
    push_list(alloc, &mut text, coefficients)?;
    text.push(b'\n')?;
    Ok(text)
}

// Adds the part that fails, for a sequence.
fn push_part(alloc: Global, text: &mut Vec<u8>, form: Form, part: u8) -> Result<(), AllocError>
    ensures { OnOk result (text.new.items ≡ text.old.items ++ failing_part form part) }
{
    match form {
        Form::Ooa | Form::Net => {}
        Form::Seq => {
            text.extend_from_slice(b"part ")?;
            push_number(alloc, text, part as u64)?;
            text.push(b' ')?;
        }
    }
    Ok(())
}

// Adds the numbers in decimal, with commas between them.
fn push_list(alloc: Global, text: &mut Vec<u8>, numbers: &[u8]) -> Result<(), AllocError>
    ensures { OnOk result (text.new.items ≡ text.old.items ++ comma_list numbers.now) }
{
    let Some((first, rest)) = numbers.split_first() else {
        return Ok(());
    };
    push_number(alloc, text, *first as u64)?;
    push_behind(alloc, text, rest)?;
    Ok(())
}

// Adds the numbers in decimal, with a comma before each.
fn push_behind(alloc: Global, text: &mut Vec<u8>, numbers: &[u8]) -> Result<(), AllocError>
    ensures { OnOk result (text.new.items ≡ text.old.items ++ flat_map
        (λ n. 44 ∷ decimal n) numbers.now) }
{
    for number in numbers {
        text.push(b',')?;
        push_number(alloc, text, *number as u64)?;
    }
    Ok(())
}

// Adds the number in decimal.
fn push_number(alloc: Global, text: &mut Vec<u8>, number: u64) -> Result<(), AllocError>
    ensures { OnOk result (text.new.items ≡ text.old.items ++ decimal number) }
{
    let digits = format!(in alloc; "{number}")?;
    text.extend_from_slice(digits.as_bytes())?;
    Ok(())
}
