//! A command's store: opening it, and importing texts into it.
ghost use Rattle.std.specs.Prelude.{◌≡◌, ◌≢◌, ◌≤◌, ◌⊎◌, ℕ, List, Option, Some, IfOk, IfErr, IsErrOf};
ghost use Rattle.mt_io.specs.Faults.{Rose};
ghost use Rattle.mt_cells.specs.declared.rules.RuleSet.{RuleSet};
ghost use Rattle.mt_derive.specs.declared.events.Event.{Event};
ghost use Rattle.mt_service.specs.declared.outcomes.Outcome.{Outcome};
ghost use Rattle.mt_service.specs.Records.{IsKept, ArePut};
ghost use Rattle.mt_service.specs.Steps.{IsStep};
ghost use Rattle.mt_service.specs.Telling.{AreTold};
ghost use Rattle.mt_service.specs.Texts.{open_text, outcome_text};
ghost use Rattle.mint.specs.declared.command.TheConstants.{MOST_READ};
ghost use Rattle.mint.specs.declared.words.Task.TheVariants as task;
ghost use Rattle.mint.specs.Doing.{IsBadAnswer, IsDone, IsStopped, status_given_up};
ghost use Rattle.mint.specs.Input.{IsInput, TakesAtMost};
ghost use Rattle.mint.specs.Run.{World};
ghost use Rattle.mint.specs.Statuses.{Finished, ending, status_of};
ghost use Rattle.mint.specs.Store.{AreLeft, Grows};

use crate::causes::Cause;
use crate::command::{Answer, MOST_READ};
use crate::input::read_input;
use crate::status::Status;
use mt_cells::{Bounds, RuleSet};
use mt_feed::Feed;
use mt_io::Source;
use mt_keeper::Keeper;
use mt_service::{OpenRefused, Outcome, Service};
use std::alloc::Global;

/// The service over the records, or the line for why they are refused.
pub(crate) fn opened<K: Keeper>(
    alloc: Global,
    bounds: Bounds,
    rules: RuleSet,
    keeper: &mut K,
) -> Result<Result<Service, Answer>, Cause>
    ensures bounds { IfOk result (λ r. IfOk r (λ s. s.bounds ≡ bounds)) }
    ensures rules { IfOk result (λ r. IfOk r (λ s. s.rules ≡ rules)) }
    ensures stands { IfOk result (λ r. IfOk r
        (λ s. Grows bounds (K.records keeper.old) (K.records keeper.new) s.events s.events)) }
    ensures kept { IfOk result (λ r. IfOk r
        (λ s. IsKept bounds (K.records keeper.new) s.events)) }
    ensures bad { IfOk result (λ r. IfErr r
        (λ a. IsBadAnswer bounds (K.records keeper.old) (K.records keeper.new) a.status
        a.text.items)) }
    ensures left { AreLeft (K.records keeper.old) (K.records keeper.new) }
    ensures later { K.faults keeper.old ≤ K.faults keeper.new }
    ensures unread { ¬ IsErrOf result Cause.ReadFault }
    ensures fault { IsErrOf result Cause.KeeperFault
        → Rose (K.faults keeper.old) (K.faults keeper.new) }
{
    match Service::open(alloc, keeper, bounds, rules) {
        Ok(service) => Ok(Ok(service)),
        Err(refused) => Ok(Err(bad_store(alloc, refused)?)),
    }
}

/// The line for why the records are refused.
pub(crate) fn bad_store(alloc: Global, refused: OpenRefused) -> Result<Answer, Cause>
    ensures status { IfOk result (λ a. a.status ≡ Status.BadStore) }
    ensures line { IfOk result (λ a. a.text.items ≡ open_text refused) }
    ensures known { IfOk result (λ a. (refused ≢ OpenRefused.KeeperFault) × (refused ≢ OpenRefused.Memory)) }
    ensures unread { ¬ IsErrOf result Cause.ReadFault }
    ensures fault { IsErrOf result Cause.KeeperFault → refused ≡ OpenRefused.KeeperFault }
{
    match refused {
        OpenRefused::KeeperFault => Err(Cause::KeeperFault),
        OpenRefused::Memory => Err(Cause::Memory),
        OpenRefused::TooMany(_) | OpenRefused::BadRecord { .. } => Ok(Answer {
            status: Status::BadStore,
            text: refused.line(alloc)?,
        }),
    }
}

/// The answer for the text on the input, which is imported.
pub(crate) fn imported<K: Keeper, R: Source>(
    alloc: Global,
    bounds: Bounds,
    rules: RuleSet,
    keeper: &mut K,
    feeds: &mut Vec<Box<dyn Feed + Send>>,
    input: &mut R,
) -> Result<Answer, Cause>
    // Whatever the output tells.
    ensures answer { IfOk result (λ a. (x y : Option (List ℕ)) →
        IsDone (λ b. told b) (λ b. failures b) bounds rules task.Import
        (record { input = R.left input.old; output = x; records = K.records keeper.old })
        (record { input = R.left input.new; output = y; records = K.records keeper.new })
        feeds.old.items feeds.new.items a.status a.text.items) }
    ensures finished { IfOk result (λ a. ending a.status ≡ Finished) }
    ensures stopped { IfErr result (λ e. (x y : Option (List ℕ)) →
        IsStopped (λ b. told b) (λ b. failures b) bounds rules task.Import
        (record { input = R.left input.old; output = x; records = K.records keeper.old })
        (record { input = R.left input.new; output = y; records = K.records keeper.new })
        feeds.old.items feeds.new.items (status_given_up e)) }
    ensures most { TakesAtMost MOST_READ (R.left input.old) (R.left input.new) }
    ensures read_fault { IsErrOf result Cause.ReadFault
        → Rose (R.faults input.old) (R.faults input.new) }
    ensures keeper_fault { IsErrOf result Cause.KeeperFault
        → Rose (K.faults keeper.old) (K.faults keeper.new) }
{
    match opened(alloc, bounds, rules, keeper)? {
        Ok(mut service) => import_input(alloc, &mut service, keeper, feeds, input),
        Err(answer) => Ok(answer),
    }
}

// Imports the text on the input into the service.
fn import_input<K: Keeper, R: Source>(
    alloc: Global,
    service: &mut Service,
    keeper: &mut K,
    feeds: &mut Vec<Box<dyn Feed + Send>>,
    input: &mut R,
) -> Result<Answer, Cause>
    requires { IsKept service.old.bounds (K.records keeper.old) service.old.events }
    ensures answer { IfOk result (λ a. (text : List ℕ)
        × IsInput MOST_READ (R.left input.old) (R.left input.new) text × (o : Outcome)
        × IsStep service.old.bounds service.old.rules service.old.events text o service.new.events
        × (status_of o ≡ Some a.status) × (a.text.items ≡ outcome_text o)) }
    ensures stopped { IfErr result (λ e. (service.new.events ≡ service.old.events)
        ⊎ ((e ≡ Cause.Memory) × (text : List ℕ)
        × IsInput MOST_READ (R.left input.old) (R.left input.new) text × (o : Outcome)
        × IsStep service.old.bounds service.old.rules service.old.events text o service.new.events)) }
    ensures put { ArePut (K.records keeper.old) (K.records keeper.new) service.old.events
        service.new.events }
    ensures told { AreTold service.old.bounds service.old.rules (λ b. told b) (λ b. failures b)
        service.old.events service.new.events feeds.old.items feeds.new.items }
    ensures most { TakesAtMost MOST_READ (R.left input.old) (R.left input.new) }
    ensures read_fault { IsErrOf result Cause.ReadFault
        → Rose (R.faults input.old) (R.faults input.new) }
    ensures keeper_fault { IsErrOf result Cause.KeeperFault
        → Rose (K.faults keeper.old) (K.faults keeper.new) }
{
    let text = read_input(alloc, input, MOST_READ)?;
    let (status, outcome) = import_text(alloc, service, keeper, feeds, &text)?;
    Ok(Answer {
        status,
        text: outcome.line(alloc)?,
    })
}

/// Imports the text, and answers how that ends and what comes of it.
pub(crate) fn import_text<K: Keeper>(
    alloc: Global,
    service: &mut Service,
    keeper: &mut K,
    feeds: &mut Vec<Box<dyn Feed + Send>>,
    text: &[u8],
) -> Result<(Status, Outcome), Cause>
    requires { IsKept service.old.bounds (K.records keeper.old) service.old.events }
    ensures bounds { service.new.bounds ≡ service.old.bounds }
    ensures rules { service.new.rules ≡ service.old.rules }
    ensures status { IfOk result (λ r. status_of r.1 ≡ Some r.0) }
    ensures step { IfOk result (λ r. IsStep service.old.bounds service.old.rules service.old.events
        text.now r.1 service.new.events) }
    ensures stopped { IfErr result (λ _. service.new.events ≡ service.old.events) }
    ensures put { ArePut (K.records keeper.old) (K.records keeper.new) service.old.events
        service.new.events }
    ensures kept { IsKept service.new.bounds (K.records keeper.new) service.new.events }
    ensures told { AreTold service.old.bounds service.old.rules (λ b. told b) (λ b. failures b)
        service.old.events service.new.events feeds.old.items feeds.new.items }
    ensures later { K.faults keeper.old ≤ K.faults keeper.new }
    ensures unread { ¬ IsErrOf result Cause.ReadFault }
    ensures fault { IsErrOf result Cause.KeeperFault
        → Rose (K.faults keeper.old) (K.faults keeper.new) }
{
    let outcome = service.import(alloc, keeper, feeds, text);
    let status = status_by(&outcome)?;
    Ok((status, outcome))
}

// How an import ends that comes to this, or why it is given up.
fn status_by(outcome: &Outcome) -> Result<Status, Cause>
    ensures status { IfOk result (λ s. status_of outcome.now ≡ Some s) }
    ensures cause { IfErr result (λ e. ((outcome.now ≡ Outcome.KeeperFault) × (e ≡ Cause.KeeperFault))
        ⊎ ((outcome.now ≡ Outcome.Memory) × (e ≡ Cause.Memory))) }
{
    match outcome {
        Outcome::Accepted { .. }
        | Outcome::Withdrawn { .. }
        | Outcome::Already { .. }
        | Outcome::AlreadyWithdrawn { .. } => Ok(Status::Ok),
        Outcome::KeeperFault => Err(Cause::KeeperFault),
        Outcome::Memory => Err(Cause::Memory),
        Outcome::Form(_)
        | Outcome::NoImport { .. }
        | Outcome::Range { .. }
        | Outcome::TooManyChoices { .. }
        | Outcome::IsWithdrawn { .. }
        | Outcome::NameTaken { .. }
        | Outcome::Full
        | Outcome::Dependent { .. } => Ok(Status::Refused),
    }
}
