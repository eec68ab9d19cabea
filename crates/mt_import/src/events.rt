//! The texts of events, and what they say: import texts and withdrawal texts.
ghost use Rattle.std.specs.Prelude.{◌≡◌, ℕ, ◌<◌, List, IfSome, Some, MatchResult};
ghost use Rattle.mt_import.specs.declared.headers.Header.{Header};
ghost use Rattle.mt_import.specs.Texts.{HasHeader};
ghost use Rattle.mt_import.specs.Events.{IsEvent, IsEventRefusal};
ghost use Rattle.mt_import.specs.EventReading.{IsEventText, IsEventReading};

use crate::import_text::ImportText;
use crate::refusals::{FormRefused, ImportRefused};
use crate::withdrawals::read_withdrawal;
use mt_system::{Claim, Name};
use std::alloc::Global;

/// A text that is an event.
#[derive(Drop)]
pub enum EventText<'a> {
    /// An import text. Its claim can be read.
    Import(ImportText<'a>),
    /// A withdrawal text with this name.
    Withdraw(Name),
}

impl<'a> EventText<'a> {
    /// The text, or why it is no event: it has more than [`MOST_BYTES`](crate::MOST_BYTES) bytes, or
    /// this is the first refused line.
    pub fn of(bytes: &'a [u8]) -> Result<EventText<'a>, FormRefused>
        ensures { MatchResult result (IsEventText bytes.now) (IsEventRefusal bytes.now) }
    {
        if let Some(name) = read_withdrawal(bytes)? {
            return Ok(EventText::Withdraw(name));
        }
        match ImportText::of(bytes) {
            Ok(text) => Ok(EventText::Import(text)),
            Err(refused) => Err(refused),
        }
    }
}

/// What an event says.
#[derive(Debug, Drop)]
pub enum Said {
    /// This claim is made.
    Claim(Claim),
    /// The import of this name is withdrawn.
    Withdraw(Name),
}

/// Whether this is the text of an event. Else it answers why it is none, as [`EventText::of`] does.
pub fn in_event_grammar(bytes: &[u8]) -> Result<(), FormRefused>
    ensures { MatchResult result (λ _. IsEvent bytes.now) (IsEventRefusal bytes.now) }
{
    match EventText::of(bytes) {
        Ok(_) => Ok(()),
        Err(refused) => Err(refused),
    }
}

/// What the text says, or why it is no event, as [`EventText::of`] says.
pub fn read_event(alloc: Global, bytes: &[u8]) -> Result<Said, ImportRefused>
    requires { (h : Header) → HasHeader bytes.now h → (h.m < 256) × (h.s < 256) × (h.depth < 256) }
    ensures { IsEventReading bytes.now result }
{
    let event = match EventText::of(bytes) {
        Ok(event) => event,
        Err(refused) => return Err(ImportRefused::Form(refused)),
    };
    match event {
        EventText::Import(text) => Ok(Said::Claim(text.claim(alloc)?)),
        EventText::Withdraw(name) => Ok(Said::Withdraw(name)),
    }
}
