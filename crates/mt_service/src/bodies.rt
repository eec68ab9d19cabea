//! What comes of a text, as JSON: compact, with keys in byte order.
ghost use Rattle.std.specs.Prelude.{◌≡◌, map, IfOk};
ghost use Rattle.serde_json.specs.Written.{compact_text};
ghost use Rattle.serde_json.specs.View.{view};
ghost use Rattle.mt_service.specs.Bodies.{natural, wanted_word, form_data, import_data, conflict_data, error_data, accepted_data, withdrawn_data, dependent_data, outcome_data};
ghost use Rattle.mt_service.specs.declared.outcomes.Outcome.TheVariants as outcome;

use crate::gate::MOST_CHOICES;
use crate::outcomes::Outcome;
use mt_cells::Part;
use mt_derive::MOST_IMPORTS;
use mt_import::{FormRefused, MOST_BYTES, Wanted};
use mt_system::Name;
use serde_json::{Value, json};
use std::alloc::{AllocError, Global};
use std::str::from_utf8;

impl Outcome {
    /// The body that tells it over HTTP: a JSON object, with its number of changed values where it
    /// changed the list, and with `error` where it is a refusal or a failure.
    pub fn json(&self, alloc: Global) -> Result<Vec<u8>, AllocError>
        ensures { IfOk result (λ body. body.items ≡ compact_text (outcome_data self.now)) }
    {
        self.value(alloc)?.to_vec(alloc)
    }

    fn value(&self, alloc: Global) -> Result<Value, AllocError>
        ensures { IfOk result (λ value. view value ≡ outcome_data self.now) }
    {
        match self {
            Self::Form(refused) => form_value(alloc, *refused),
            Self::NoImport { name } => no_import_value(alloc, name),
            Self::AlreadyWithdrawn { number, name } => import_value(
                alloc,
                *number,
                name,
                "already withdrawn",
            ),
            Self::Range {
                name,
                number,
                limit,
            } => range_value(alloc, *name, *number, *limit),
            Self::TooManyChoices { count } => choices_value(alloc, *count),
            Self::Already { number, name } => import_value(alloc, *number, name, "already"),
            Self::IsWithdrawn { number, name } => conflict_value(alloc, "withdrawn", *number, name),
            Self::NameTaken { number, name } => conflict_value(alloc, "name taken", *number, name),
            Self::Full => full_value(alloc),
            Self::Dependent {
                part,
                choice,
                coefficients,
                ..
            } => dependent_value(alloc, *part, choice.sizes(), coefficients.digits()),
            Self::KeeperFault => error_value(alloc, "keeper"),
            Self::Memory => error_value(alloc, "memory"),
            Self::Accepted {
                number,
                name,
                raised,
                ..
            } => accepted_value(alloc, *number, name, *raised),
            Self::Withdrawn {
                number,
                name,
                lowered,
                ..
            } => withdrawn_value(alloc, *number, name, *lowered),
        }
    }
}

fn form_value(alloc: Global, refused: FormRefused) -> Result<Value, AllocError>
    ensures { IfOk result (λ value. view value ≡ form_data refused) }
{
    match refused {
        FormRefused::TooLong => json!(in alloc; {"error": "form", "limit": MOST_BYTES}),
        FormRefused::Line { line, wanted } => {
            let wanted = wanted_word(wanted);
            json!(in alloc; {"error": "form", "line": line, "wanted": wanted})
        }
    }
}

fn wanted_word(wanted: Wanted) -> &'static str
    ensures { result.now ≡ wanted_word wanted }
{
    match wanted {
        Wanted::Header => "header",
        Wanted::Source => "source",
        Wanted::Row => "row",
        Wanted::Blank => "blank",
    }
}

// The name, which is ASCII, as text.
fn name_text(name: &Name) -> &str
    ensures { result.now ≡ name.now }
{
    from_utf8(name.bytes()).unwrap()
}

fn no_import_value(alloc: Global, name: &Name) -> Result<Value, AllocError>
    ensures { IfOk result (λ value. view value ≡ outcome_data (outcome.NoImport name.now)) }
{
    let name = name_text(name);
    json!(in alloc; {"error": "no import", "name": name})
}

fn import_value(alloc: Global, number: u32, name: &Name, word: &str) -> Result<Value, AllocError>
    ensures { IfOk result (λ value. view value ≡ import_data number name.now word.now) }
{
    let name = name_text(name);
    json!(in alloc; {"import": number, "name": name, "outcome": word})
}

fn conflict_value(alloc: Global, word: &str, number: u32, name: &Name) -> Result<Value, AllocError>
    ensures { IfOk result (λ value. view value ≡ conflict_data word.now number name.now) }
{
    let name = name_text(name);
    json!(in alloc; {"error": word, "import": number, "name": name})
}

fn range_value(alloc: Global, name: Part, number: u8, limit: u8) -> Result<Value, AllocError>
    ensures { IfOk result (λ value. view value ≡ outcome_data (outcome.Range name number limit)) }
{
    let name = format!(in alloc; "{name}")?;
    json!(in alloc; {"error": "range", "limit": limit, "name": name, "number": number})
}

fn choices_value(alloc: Global, count: u64) -> Result<Value, AllocError>
    ensures { IfOk result (λ value. view value ≡ outcome_data (outcome.TooManyChoices count)) }
{
    json!(in alloc; {"error": "choices", "limit": MOST_CHOICES, "number": count})
}

fn full_value(alloc: Global) -> Result<Value, AllocError>
    ensures { IfOk result (λ value. view value ≡ outcome_data outcome.Full) }
{
    json!(in alloc; {"error": "full", "limit": MOST_IMPORTS})
}

fn dependent_value(
    alloc: Global,
    part: u8,
    choice: &[u8],
    coefficients: &[u8],
) -> Result<Value, AllocError>
    ensures { IfOk result (λ value. view value ≡ dependent_data part choice.now coefficients.now) }
{
    let choice = number_values(alloc, choice)?;
    let coefficients = number_values(alloc, coefficients)?;
    json!(in alloc; {"choice": choice, "coefficients": coefficients, "error": "dependent", "part": part})
}

fn number_values(alloc: Global, numbers: &[u8]) -> Result<Vec<Value>, AllocError>
    ensures { IfOk result (λ values. map view values.items ≡ map natural numbers.now) }
{
    let mut values = Vec::with_capacity(alloc, numbers.len())?;
    for place in 0..numbers.len() {
        values.push(Value::from(numbers[place]))?;
    }
    Ok(values)
}

fn error_value(alloc: Global, word: &str) -> Result<Value, AllocError>
    ensures { IfOk result (λ value. view value ≡ error_data word.now) }
{
    json!(in alloc; {"error": word})
}

fn accepted_value(alloc: Global, number: u32, name: &Name, raised: u32) -> Result<Value, AllocError>
    ensures { IfOk result (λ value. view value ≡ accepted_data number name.now raised) }
{
    let name = name_text(name);
    json!(in alloc; {"import": number, "name": name, "outcome": "accepted", "raised": raised})
}

fn withdrawn_value(
    alloc: Global,
    number: u32,
    name: &Name,
    lowered: u32,
) -> Result<Value, AllocError>
    ensures { IfOk result (λ value. view value ≡ withdrawn_data number name.now lowered) }
{
    let name = name_text(name);
    json!(in alloc; {"import": number, "lowered": lowered, "name": name, "outcome": "withdrawn"})
}
