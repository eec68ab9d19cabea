//! The list of events that a keeper's records stand for.
ghost use Rattle.std.specs.Prelude.{◌≡◌, ◌≢◌, ◌≤◌, ◌<◌, ℕ, List, [], length, Ok, IfOk, IfErr};
ghost use Rattle.mt_io.specs.Faults.{Rose};
ghost use Rattle.mt_derive.specs.declared.imports.TheConstants.{MOST_EVENTS};
ghost use Rattle.mt_keeper.specs.Keeping.{Loads};
ghost use Rattle.mt_service.specs.declared.opening.OpenRefused.TheVariants as refused;
ghost use Rattle.mt_service.specs.Opening.{IsOpening};
ghost use Rattle.mt_service.specs.Filling.{Adopts, Fills, bad_of, refused_of};

use crate::outcomes::Outcome;
use crate::service::Service;
use mt_cells::{Bounds, RuleSet, Steps};
use mt_derive::MOST_EVENTS;
use mt_keeper::{Keeper, KeeperRefused, Records};
use mt_table::Table;
use std::alloc::{AllocError, Global};
use std::marker::Brand;
use std::sync::ledger::{Blank, Ledger};

/// Why a record is bad: the first reason, in the order in which they are looked for.
#[derive(Clone, Copy, PartialEq, Eq, Debug)]
pub enum Why {
    /// It is neither an import text nor a withdrawal text.
    Form,
    /// No record before it imports the name that it withdraws.
    Unknown,
    /// A record before it withdraws the same import.
    Withdrawn,
    /// A size is over the bounds.
    Range,
    /// A check might try too many choices.
    Choices,
    /// A record before it imports the name.
    Name,
    /// As many imports stand before it as there may be.
    Full,
    /// The claimed strength fails.
    Dependent,
}

/// Why records are refused.
#[derive(Clone, Copy, PartialEq, Eq, Debug)]
pub enum OpenRefused {
    /// The keeper failed.
    KeeperFault,
    /// There are so many records, which are more than there may be events.
    TooMany(u32),
    /// The record of this number, counted from 1, is the first bad one.
    BadRecord { number: u32, why: Why },
    /// Want of memory.
    Memory,
}

// Why a record was not taken.
#[derive(Clone, Copy)]
pub(crate) enum Bad {
    Why(Why),
    Memory,
}

impl Service {
    /// The service over the records of the keeper, which are read and checked in their order. They
    /// are refused as soon as the keeper fails; then where there are more than 2,048; then for the
    /// first bad one. Want of memory may come at any point.
    pub fn open<K: Keeper>(
        alloc: Global,
        keeper: &mut K,
        bounds: Bounds,
        rules: RuleSet,
    ) -> Result<Service, OpenRefused>
        ensures bounds { IfOk result (λ s. s.bounds ≡ bounds) }
        ensures rules { IfOk result (λ s. s.rules ≡ rules) }
        ensures opening { (records : List (List ℕ)) × Loads {E = Unit {0}} (K.records keeper.old)
            (K.records keeper.new) (Ok records) × IsOpening bounds records result }
        ensures later { K.faults keeper.old ≤ K.faults keeper.new }
        ensures fault { IfErr result (λ e. e ≡ refused.KeeperFault
            → Rose (K.faults keeper.old) (K.faults keeper.new)) }
    {
        let records = match keeper.load(alloc) {
            Ok(records) => records,
            Err(KeeperRefused::Fault) => return Err(OpenRefused::KeeperFault),
            Err(KeeperRefused::Memory) => return Err(OpenRefused::Memory),
        };
        opened(alloc, &records, bounds, rules)
    }

    // Appends the event of a record, or says why it is bad.
    fn adopt(&mut self, alloc: Global, text: &[u8]) -> Result<(), Bad>
        ensures bounds { self.new.bounds ≡ self.old.bounds }
        ensures rules { self.new.rules ≡ self.old.rules }
        ensures adopts { Adopts self.old.bounds self.old.events text.now self.new.events result }
    {
        match self.examine(alloc, text) {
            Ok(named) => {
                self.append(&named.event);
                Ok(())
            }
            Err(outcome) => Err(bad_by(outcome)),
        }
    }
}

// The service over the records.
fn opened(
    alloc: Global,
    records: &Records,
    bounds: Bounds,
    rules: RuleSet,
) -> Result<Service, OpenRefused>
    ensures bounds { IfOk result (λ s. s.bounds ≡ bounds) }
    ensures rules { IfOk result (λ s. s.rules ≡ rules) }
    ensures opening { IsOpening bounds records.now result }
    ensures fault { IfErr result (λ e. e ≢ refused.KeeperFault) }
{
    if records.len() as usize > MOST_EVENTS {
        return Err(OpenRefused::TooMany(records.len()));
    }
    let mut service = match empty::<Brand>(alloc, bounds, rules, Blank::new(1)) {
        Ok(service) => service,
        Err(AllocError) => return Err(OpenRefused::Memory),
    };
    match fill(alloc, &mut service, records) {
        Ok(()) => Ok(service),
        Err(refused) => Err(refused),
    }
}

// Appends the events of the records to a list without events.
fn fill(alloc: Global, service: &mut Service, records: &Records) -> Result<(), OpenRefused>
    requires none { service.old.events ≡ [] }
    requires few { length records.now ≤ MOST_EVENTS }
    ensures bounds { service.new.bounds ≡ service.old.bounds }
    ensures rules { service.new.rules ≡ service.old.rules }
    ensures fills { Fills service.old.bounds records.now service.new.events result }
{
    for i in 0..records.len() {
        match service.adopt(alloc, records.get(i + 1)) {
            Ok(()) => {}
            Err(bad) => return Err(refused_by(bad, i + 1)),
        }
    }
    Ok(())
}

// The service without events, whose steps nobody counts.
fn empty<L: Ledger>(
    alloc: Global,
    bounds: Bounds,
    rules: RuleSet,
    blank: Blank,
) -> Result<Service, AllocError>
    requires name { blank.name ≡ L.name }
    requires parts { blank.parts ≡ L.parts }
    requires some { 0 < L.parts }
    ensures bounds { IfOk result (λ s. s.bounds ≡ bounds) }
    ensures rules { IfOk result (λ s. s.rules ≡ rules) }
    ensures events { IfOk result (λ s. s.events ≡ []) }
{
    let mut steps = Steps::<L>::of(blank);
    let table = Table::new(alloc, bounds, rules, &mut steps)?;
    Ok(Service::over(table))
}

// Why a record is bad whose text comes to this.
fn bad_by(outcome: Outcome) -> Bad
    ensures { result ≡ bad_of outcome }
{
    match outcome {
        Outcome::Form(_) => Bad::Why(Why::Form),
        Outcome::NoImport { .. } => Bad::Why(Why::Unknown),
        Outcome::AlreadyWithdrawn { .. } => Bad::Why(Why::Withdrawn),
        Outcome::Range { .. } => Bad::Why(Why::Range),
        Outcome::TooManyChoices { .. } => Bad::Why(Why::Choices),
        Outcome::Already { .. } | Outcome::IsWithdrawn { .. } | Outcome::NameTaken { .. } =>
            Bad::Why(Why::Name),
        Outcome::Full => Bad::Why(Why::Full),
        Outcome::Dependent { .. } => Bad::Why(Why::Dependent),
        Outcome::KeeperFault
        | Outcome::Memory
        | Outcome::Accepted { .. }
        | Outcome::Withdrawn { .. } => Bad::Memory,
    }
}

// Why the records are refused of which the one of this number is bad.
fn refused_by(bad: Bad, number: u32) -> OpenRefused
    ensures { result ≡ refused_of bad number }
{
    match bad {
        Bad::Why(why) => OpenRefused::BadRecord { number, why },
        Bad::Memory => OpenRefused::Memory,
    }
}
