//! Generated claims, which are imported one after the other.
ghost use Rattle.std.specs.Prelude.{◌≡◌, ◌≢◌, ◌≤◌, ◌<◌, ◌+◌, ◌++◌, ◌-◌, ◌^◌, ◌⊎◌, ℕ, List, Option, [], min, length, map, take, decimal, All, IsSome, IfOk, OnOk, IfErr, IsErrOf};
ghost use Rattle.mt_io.specs.Faults.{Rose};
ghost use Rattle.mt_system.specs.Statements.{statement_of};
ghost use Rattle.mt_import.specs.Canonical.{canonical_text};
ghost use Rattle.mt_service.specs.declared.outcomes.Outcome.{Outcome};
ghost use Rattle.mt_service.specs.Records.{IsKept, ArePut};
ghost use Rattle.mt_service.specs.Steps.{IsStep};
ghost use Rattle.mt_service.specs.Telling.{AreTold};
ghost use Rattle.mint.specs.declared.words.Task.TheVariants as task;
ghost use Rattle.mint.specs.Doing.{IsDone, IsStopped, status_given_up};
ghost use Rattle.mint.specs.Generating.{accepted_by, already_by, refused_by, tried_by, tally_text, AreImported, IsGeneratedRun, IsPartlyGenerated};
ghost use Rattle.mint.specs.Run.{World};
ghost use Rattle.mint.specs.Statuses.{Finished, ending, status_of};
ghost use Rattle.mint.specs.Tallies.{IsTally};

use crate::causes::Cause;
use crate::command::Answer;
use crate::status::Status;
use crate::stores::{import_text, opened};
use mt_cells::{Bounds, RuleSet};
use mt_feed::Feed;
use mt_gen::generated;
use mt_import::print_import;
use mt_keeper::Keeper;
use mt_service::{Outcome, Service};
use mt_system::Claim;
use std::alloc::{AllocError, Global};

/// How many imports came to an outcome of each kind, and how many instances of rules were tried for
/// those that were accepted, at most 2^64 - 1.
#[derive(Clone, Copy)]
pub(crate) struct Tally {
    accepted: u32,
    already: u32,
    refused: u32,
    tried: u64,
}

impl Tally {
    // Of no imports.
    fn none() -> Tally
        ensures { IsTally [] result }
    {
        Tally {
            accepted: 0,
            already: 0,
            refused: 0,
            tried: 0,
        }
    }

    // Counts one outcome more.
    fn count(&mut self, outcome: &Outcome)
        requires { self.old.accepted + self.old.already + self.old.refused < 2 ^ 32 - 1 }
        ensures accepted { self.new.accepted ≡ self.old.accepted + accepted_by outcome.now }
        ensures already { self.new.already ≡ self.old.already + already_by outcome.now }
        ensures refused { self.new.refused ≡ self.old.refused + refused_by outcome.now }
        ensures tried { self.new.tried ≡ min (self.old.tried + tried_by outcome.now) (2 ^ 64 - 1) }
    {
        match outcome {
            Outcome::Accepted { tried, .. } => {
                self.accepted += 1;
                self.tried = self.tried.saturating_add(*tried);
            }
            Outcome::Already { .. } => self.already += 1,
            Outcome::KeeperFault | Outcome::Memory => {}
            Outcome::Form(_)
            | Outcome::NoImport { .. }
            | Outcome::AlreadyWithdrawn { .. }
            | Outcome::Range { .. }
            | Outcome::TooManyChoices { .. }
            | Outcome::IsWithdrawn { .. }
            | Outcome::NameTaken { .. }
            | Outcome::Full
            | Outcome::Dependent { .. }
            | Outcome::Withdrawn { .. } => self.refused += 1,
        }
    }

    // The line for so many claims, with the score after them.
    fn line(&self, alloc: Global, count: u32, score: u64) -> Result<Vec<u8>, AllocError>
        ensures { IfOk result (λ text. text.items ≡ tally_text count self.now.accepted
            self.now.already self.now.refused score self.now.tried) }
    {
        let mut text = Vec::new(alloc);
        push_count(alloc, &mut text, b"generated ", count as u64)?;
        push_count(alloc, &mut text, b": accepted ", self.accepted as u64)?;
        push_count(alloc, &mut text, b", already ", self.already as u64)?;
        push_count(alloc, &mut text, b", refused ", self.refused as u64)?;
        push_count(alloc, &mut text, b", score ", score)?;
        push_count(alloc, &mut text, b", tried ", self.tried)?;
        text.push(b'\n')?;
        Ok(text)
    }
}

// Adds the words, and the number in decimal.
fn push_count(
    alloc: Global,
    text: &mut Vec<u8>,
    words: &[u8],
    number: u64,
) -> Result<(), AllocError>
    ensures { OnOk result (text.new.items ≡ text.old.items ++ words.now ++ decimal number) }
{
    let digits = format!(in alloc; "{number}")?;
    text.extend_from_slice(words)?;
    text.extend_from_slice(digits.as_bytes())?;
    Ok(())
}

/// The answer for the first `count` claims of the seed, which are imported one after the other.
pub(crate) fn generated_all<K: Keeper>(
    alloc: Global,
    bounds: Bounds,
    rules: RuleSet,
    keeper: &mut K,
    feeds: &mut Vec<Box<dyn Feed + Send>>,
    seed: u64,
    count: u32,
) -> Result<Answer, Cause>
    // Whatever the input and the output tell.
    ensures answer { IfOk result (λ a. (x y z : Option (List ℕ)) →
        IsDone (λ b. told b) (λ b. failures b) bounds rules (task.Generate seed count)
        (record { input = x; output = y; records = K.records keeper.old })
        (record { input = x; output = z; records = K.records keeper.new })
        feeds.old.items feeds.new.items a.status a.text.items) }
    ensures finished { IfOk result (λ a. ending a.status ≡ Finished) }
    ensures stopped { IfErr result (λ e. (x y z : Option (List ℕ)) →
        IsStopped (λ b. told b) (λ b. failures b) bounds rules (task.Generate seed count)
        (record { input = x; output = y; records = K.records keeper.old })
        (record { input = x; output = z; records = K.records keeper.new })
        feeds.old.items feeds.new.items (status_given_up e)) }
    ensures unread { ¬ IsErrOf result Cause.ReadFault }
    ensures fault { IsErrOf result Cause.KeeperFault
        → Rose (K.faults keeper.old) (K.faults keeper.new) }
{
    match opened(alloc, bounds, rules, keeper)? {
        Ok(mut service) => import_generated(alloc, &mut service, keeper, feeds, seed, count),
        Err(answer) => Ok(answer),
    }
}

// Imports the first `count` claims of the seed into the service.
fn import_generated<K: Keeper>(
    alloc: Global,
    service: &mut Service,
    keeper: &mut K,
    feeds: &mut Vec<Box<dyn Feed + Send>>,
    seed: u64,
    count: u32,
) -> Result<Answer, Cause>
    requires { IsKept service.old.bounds (K.records keeper.old) service.old.events }
    ensures answer { IfOk result (λ a. (a.status ≡ Status.Ok)
        × IsGeneratedRun service.old.bounds service.old.rules seed count service.old.events
        service.new.events a.text.items) }
    ensures stopped { IfErr result (λ e. (e ≢ Cause.ReadFault)
        × ((service.new.events ≡ service.old.events)
        ⊎ IsPartlyGenerated service.old.bounds service.old.rules seed count service.old.events
        service.new.events)) }
    ensures put { ArePut (K.records keeper.old) (K.records keeper.new) service.old.events
        service.new.events }
    ensures told { AreTold service.old.bounds service.old.rules (λ b. told b) (λ b. failures b)
        service.old.events service.new.events feeds.old.items feeds.new.items }
    ensures later { K.faults keeper.old ≤ K.faults keeper.new }
    ensures fault { IsErrOf result Cause.KeeperFault
        → Rose (K.faults keeper.old) (K.faults keeper.new) }
{
    let claims = generated(alloc, seed, count, service.table().bounds())?;
    let tally = import_claims(alloc, service, keeper, feeds, &claims)?;
    let score = service.table().score();
    Ok(Answer {
        status: Status::Ok,
        text: tally.line(alloc, count, score)?,
    })
}

// Imports the canonical texts of the claims, and counts what comes of them.
fn import_claims<K: Keeper>(
    alloc: Global,
    service: &mut Service,
    keeper: &mut K,
    feeds: &mut Vec<Box<dyn Feed + Send>>,
    claims: &[Claim],
) -> Result<Tally, Cause>
    requires few { length claims.now < 2 ^ 32 }
    requires kept { IsKept service.old.bounds (K.records keeper.old) service.old.events }
    ensures bounds { service.new.bounds ≡ service.old.bounds }
    ensures rules { service.new.rules ≡ service.old.rules }
    ensures imported { IfOk result (λ t. (outcomes : List Outcome)
        × AreImported service.old.bounds service.old.rules service.old.events
        (map statement_of claims.now) outcomes service.new.events
        × All (λ o. IsSome (status_of o)) outcomes × IsTally outcomes t) }
    ensures stopped { IfErr result (λ e. (e ≢ Cause.ReadFault) × (n : ℕ) × (outcomes : List Outcome)
        × AreImported service.old.bounds service.old.rules service.old.events
        (take n (map statement_of claims.now)) outcomes service.new.events
        × All (λ o. IsSome (status_of o)) outcomes) }
    ensures put { ArePut (K.records keeper.old) (K.records keeper.new) service.old.events
        service.new.events }
    ensures told { AreTold service.old.bounds service.old.rules (λ b. told b) (λ b. failures b)
        service.old.events service.new.events feeds.old.items feeds.new.items }
    ensures later { K.faults keeper.old ≤ K.faults keeper.new }
    ensures fault { IsErrOf result Cause.KeeperFault
        → Rose (K.faults keeper.old) (K.faults keeper.new) }
{
    let mut tally = Tally::none();
    for claim in claims {
        let outcome = import_claim(alloc, service, keeper, feeds, claim)?;
        tally.count(&outcome);
    }
    Ok(tally)
}

// Imports the canonical text of the claim, and answers what comes of it.
fn import_claim<K: Keeper>(
    alloc: Global,
    service: &mut Service,
    keeper: &mut K,
    feeds: &mut Vec<Box<dyn Feed + Send>>,
    claim: &Claim,
) -> Result<Outcome, Cause>
    requires { IsKept service.old.bounds (K.records keeper.old) service.old.events }
    ensures bounds { service.new.bounds ≡ service.old.bounds }
    ensures rules { service.new.rules ≡ service.old.rules }
    ensures going { IfOk result (λ o. IsSome (status_of o)) }
    ensures step { IfOk result (λ o. IsStep service.old.bounds service.old.rules service.old.events
        (canonical_text (statement_of claim.now)) o service.new.events) }
    ensures stopped { IfErr result (λ e. (e ≢ Cause.ReadFault)
        × (service.new.events ≡ service.old.events)) }
    ensures put { ArePut (K.records keeper.old) (K.records keeper.new) service.old.events
        service.new.events }
    ensures kept { IsKept service.new.bounds (K.records keeper.new) service.new.events }
    ensures told { AreTold service.old.bounds service.old.rules (λ b. told b) (λ b. failures b)
        service.old.events service.new.events feeds.old.items feeds.new.items }
    ensures later { K.faults keeper.old ≤ K.faults keeper.new }
    ensures fault { IsErrOf result Cause.KeeperFault
        → Rose (K.faults keeper.old) (K.faults keeper.new) }
{
    let text = print_import(alloc, claim)?;
    let (_, outcome) = import_text(alloc, service, keeper, feeds, &text)?;
    Ok(outcome)
}
