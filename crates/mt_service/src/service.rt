//! One step of the list of events for each text.
ghost use Rattle.std.specs.Prelude.{◌≡◌, ◌≤◌, ◌<◌, ◌+◌, ℕ, List, length, MatchResult, IfOk, OnOk};
ghost use Rattle.mt_io.specs.Faults.{Rose};
ghost use Rattle.mt_derive.specs.Events.{Follows, AllFollow, imports_of};
ghost use Rattle.mt_derive.specs.Imports.{IsNamed};
ghost use Rattle.mt_import.specs.Texts.{IsImport};
ghost use Rattle.mt_import.specs.Withdrawals.{IsWithdrawal};
ghost use Rattle.mt_keeper.specs.Faults.{HasKeeperCause};
ghost use Rattle.mt_keeper.specs.Keeping.{IsNext, Puts};
ghost use Rattle.mt_system.specs.Statements.{statement_of};
ghost use Rattle.mt_table.specs.Tables.{HasTried};
ghost use Rattle.mt_service.specs.Steps.{IsStep, IsAccepted, IsAppended};
ghost use Rattle.mt_service.specs.Records.{IsKept, ArePut};
ghost use Rattle.mt_service.specs.Telling.{AreTold};
ghost use Rattle.mt_service.specs.Accepting.{HasName, IsDeclinedOrMemory, Compares, IsKnownAs, named_text, IsReadAs, IsDone, Ends};

use crate::gate::claim_within;
use crate::outcomes::Outcome;
use crate::telling::tell_all;
use mt_cells::Steps;
use mt_derive::{Event, MOST_IMPORTS};
use mt_feed::Feed;
use mt_import::{EventText, ImportText, print_import, print_withdraw};
use mt_keeper::{Keeper, KeeperRefused};
use mt_strength::{Checked, Tested};
use mt_system::{Claim, Name};
use mt_table::{Applied, Table};
use std::alloc::{AllocError, Global};
use std::marker::{Brand, Model};
use std::sync::ledger::{Blank, Ledger};

/// The accepted events with the table over them.
#[derive(Drop)]
pub struct Service {
    table: Table,
}

impl Model for Service {
    ghost use Rattle.mt_table.specs.Tables.{Contents};

    ghost Value = { Contents };

    ghost view = { λ s. s.table };
}

// An event that a text is accepted as, and the name of its import.
#[derive(Drop)]
pub(crate) struct NamedEvent {
    pub(crate) event: Event,
    pub(crate) name: Name,
}

impl Service {
    /// The service over a table.
    pub(crate) fn over(table: Table) -> Service
        ensures { result ≡ table }
    {
        Service { table }
    }

    /// The table over the accepted events.
    pub fn table(&self) -> &Table
        ensures { result.now ≡ self.now }
    {
        &self.table
    }

    /// One step: the text changes nothing, or the keeper is given its canonical text, then its event
    /// is appended, and then each feed that has not failed is told the changes in the order of cells.
    /// Nothing takes memory once the keeper has the text.
    pub fn import<K: Keeper>(
        &mut self,
        alloc: Global,
        keeper: &mut K,
        feeds: &mut Vec<Box<dyn Feed + Send>>,
        text: &[u8],
    ) -> Outcome
        requires { IsKept self.old.bounds (K.records keeper.old) self.old.events }
        ensures bounds { self.new.bounds ≡ self.old.bounds }
        ensures rules { self.new.rules ≡ self.old.rules }
        ensures step { IsStep self.old.bounds self.old.rules self.old.events text.now result
            self.new.events }
        ensures put { ArePut (K.records keeper.old) (K.records keeper.new) self.old.events
            self.new.events }
        ensures kept { IsKept self.new.bounds (K.records keeper.new) self.new.events }
        ensures later { K.faults keeper.old ≤ K.faults keeper.new }
        ensures fault { result ≡ Outcome.KeeperFault
            → Rose (K.faults keeper.old) (K.faults keeper.new) }
        ensures told { AreTold self.old.bounds self.old.rules (λ b. told b) (λ b. failures b)
            self.old.events self.new.events feeds.old.items feeds.new.items }
    {
        match self.examine(alloc, text) {
            Ok(named) => self.accept(alloc, keeper, feeds, &named),
            Err(outcome) => outcome,
        }
    }

    // The event that the text is accepted as, or why it changes nothing.
    pub(crate) fn examine(&self, alloc: Global, text: &[u8]) -> Result<NamedEvent, Outcome>
        ensures { MatchResult result
            (λ n. IsAccepted self.now.bounds self.now.events text.now n.event
            × HasName self.now.events text.now n.event n.name)
            (IsDeclinedOrMemory self.now.bounds self.now.events text.now) }
    {
        let event = match EventText::of(text) {
            Ok(event) => event,
            Err(refused) => return Err(Outcome::Form(refused)),
        };
        match event {
            EventText::Import(import) => self.examine_import(alloc, text, &import),
            EventText::Withdraw(name) => self.examine_withdrawal(text, name),
        }
    }

    // The same of an import text.
    fn examine_import(
        &self,
        alloc: Global,
        text: &[u8],
        import: &ImportText,
    ) -> Result<NamedEvent, Outcome>
        requires { IsImport text.now import.now.header import.now.note import.now.digits }
        ensures { MatchResult result
            (λ n. IsAccepted self.now.bounds self.now.events text.now n.event
            × HasName self.now.events text.now n.event n.name)
            (IsDeclinedOrMemory self.now.bounds self.now.events text.now) }
    {
        match claim_within(alloc, self.table.bounds(), text, import) {
            Ok(Ok(claim)) => self.compare(alloc, claim),
            Ok(Err(outcome)) => Err(outcome),
            Err(AllocError) => Err(Outcome::Memory),
        }
    }

    // The claim as an event, or why it is declined.
    fn compare(&self, alloc: Global, claim: Claim) -> Result<NamedEvent, Outcome>
        ensures { Compares self.now.events (statement_of claim) result }
    {
        let name = claim.name;
        if let Some(number) = self.table.imports().find(name) {
            return Err(self.known(number, &claim));
        }
        if self.table.imports().len() as usize >= MOST_IMPORTS {
            return Err(Outcome::Full);
        }
        let form = claim.form;
        match Checked::of(alloc, claim) {
            Ok(Tested::Good(checked)) => Ok(NamedEvent {
                event: Event::Import(checked),
                name,
            }),
            Ok(
                Tested::Dependent {
                    part,
                    choice,
                    coefficients,
                },
            ) => Err(Outcome::Dependent {
                form,
                part,
                choice,
                coefficients,
            }),
            Err(AllocError) => Err(Outcome::Memory),
        }
    }

    // What comes of a claim that has the name of the import of this number.
    fn known(&self, number: u32, claim: &Claim) -> Outcome
        requires { IsNamed (imports_of self.now.events) claim.now.name number }
        ensures { IsKnownAs self.now.events (statement_of claim.now) number result }
    {
        let (name, imports) = (claim.name, self.table.imports());
        if !imports.same(number, claim) {
            return Outcome::NameTaken { number, name };
        }
        if imports.live(number) {
            return Outcome::Already { number, name };
        }
        Outcome::IsWithdrawn { number, name }
    }

    // The event that a withdrawal text with this name is accepted as, or why it changes nothing.
    fn examine_withdrawal(&self, text: &[u8], name: Name) -> Result<NamedEvent, Outcome>
        requires { IsWithdrawal text.now name }
        ensures { MatchResult result
            (λ n. IsAccepted self.now.bounds self.now.events text.now n.event
            × HasName self.now.events text.now n.event n.name)
            (IsDeclinedOrMemory self.now.bounds self.now.events text.now) }
    {
        let imports = self.table.imports();
        let Some(number) = imports.find(name) else {
            return Err(Outcome::NoImport { name });
        };
        if !imports.live(number) {
            return Err(Outcome::AlreadyWithdrawn { number, name });
        }
        Ok(NamedEvent {
            event: Event::Withdraw(number),
            name,
        })
    }

    // Puts the canonical text of the event, appends it and tells the feeds.
    fn accept<K: Keeper>(
        &mut self,
        alloc: Global,
        keeper: &mut K,
        feeds: &mut Vec<Box<dyn Feed + Send>>,
        named: &NamedEvent,
    ) -> Outcome
        requires kept { IsKept self.old.bounds (K.records keeper.old) self.old.events }
        requires accepted { (text : List ℕ)
            × IsAccepted self.old.bounds self.old.events text named.now.event
            × HasName self.old.events text named.now.event named.now.name }
        ensures bounds { self.new.bounds ≡ self.old.bounds }
        ensures rules { self.new.rules ≡ self.old.rules }
        ensures put { ArePut (K.records keeper.old) (K.records keeper.new) self.old.events
            self.new.events }
        ensures later { K.faults keeper.old ≤ K.faults keeper.new }
        ensures fault { result ≡ Outcome.KeeperFault
            → Rose (K.faults keeper.old) (K.faults keeper.new) }
        ensures kept { IsKept self.new.bounds (K.records keeper.new) self.new.events }
        ensures ends { Ends self.old.bounds self.old.rules self.old.events named.now.event
            named.now.name result self.new.events }
        ensures told { AreTold self.old.bounds self.old.rules (λ b. told b) (λ b. failures b)
            self.old.events self.new.events feeds.old.items feeds.new.items }
    {
        match put(alloc, keeper, self.next_number(), named) {
            Ok(()) => {}
            Err(KeeperRefused::Fault) => return Outcome::KeeperFault,
            Err(KeeperRefused::Memory) => return Outcome::Memory,
        }
        let applied = self.append(&named.event);
        tell_all(feeds, &self.table);
        self.done(named, applied)
    }

    // The number of the event to come.
    fn next_number(&self) -> u32
        ensures number { result ≡ length self.now.events + 1 }
        ensures follow { AllFollow self.now.bounds self.now.events }
    {
        self.table.imports().events() + 1
    }

    // Appends the event, with nobody told.
    pub(crate) fn append(&mut self, event: &Event) -> Applied
        requires { Follows self.old.bounds self.old.events event.now }
        ensures bounds { self.new.bounds ≡ self.old.bounds }
        ensures rules { self.new.rules ≡ self.old.rules }
        ensures appended { IsAppended self.old.bounds self.old.rules self.old.events self.new.events
            event.now result.raised }
        ensures tried { HasTried self.old.bounds self.old.rules self.old.events event.now
            result.tried }
    {
        applied::<Brand>(&mut self.table, event, Blank::new(1))
    }

    // What comes of a text whose event was appended.
    fn done(&self, named: &NamedEvent, applied: Applied) -> Outcome
        ensures { IsDone self.now.events named.now.event named.now.name applied result }
    {
        let name = named.name;
        match named.event {
            Event::Import(_) => Outcome::Accepted {
                number: self.table.imports().len(),
                name,
                raised: applied.raised,
                tried: applied.tried,
            },
            Event::Withdraw(number) => Outcome::Withdrawn {
                number,
                name,
                lowered: applied.raised,
                tried: applied.tried,
            },
        }
    }
}

// The canonical text of the event.
fn canonical(alloc: Global, named: &NamedEvent) -> Result<Vec<u8>, AllocError>
    ensures text { IfOk result (λ text. text.items ≡ named_text named.now.event named.now.name) }
    ensures reads { IfOk result (λ text. IsReadAs named.now.event named.now.name text.items) }
{
    match &named.event {
        Event::Import(entry) => print_import(alloc, entry.claim()),
        Event::Withdraw(_) => print_withdraw(alloc, named.name),
    }
}

// Puts the canonical text of the event as the record of this number.
fn put<K: Keeper>(
    alloc: Global,
    keeper: &mut K,
    number: u32,
    named: &NamedEvent,
) -> Result<(), KeeperRefused>
    requires { IsNext (K.records keeper.old) number }
    ensures records { Puts (K.records keeper.old) (K.records keeper.new) result
        (named_text named.now.event named.now.name) }
    ensures reads { OnOk result (IsReadAs named.now.event named.now.name
        (named_text named.now.event named.now.name)) }
    ensures cause { HasKeeperCause (K.faults keeper.old) (K.faults keeper.new) result }
{
    let text = canonical(alloc, named)?;
    keeper.put(alloc, number, &text)
}

// Applies the event, whose steps nobody counts.
fn applied<L: Ledger>(table: &mut Table, event: &Event, blank: Blank) -> Applied
    requires name { blank.name ≡ L.name }
    requires parts { blank.parts ≡ L.parts }
    requires some { 0 < L.parts }
    requires follows { Follows table.old.bounds table.old.events event.now }
    ensures bounds { table.new.bounds ≡ table.old.bounds }
    ensures rules { table.new.rules ≡ table.old.rules }
    ensures appended { IsAppended table.old.bounds table.old.rules table.old.events table.new.events
        event.now result.raised }
    ensures tried { HasTried table.old.bounds table.old.rules table.old.events event.now
        result.tried }
{
    let mut steps = Steps::<L>::of(blank);
    table.apply(event, &mut steps)
}
