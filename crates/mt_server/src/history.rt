//! The accepted list with its keeper and its publication.
ghost use Rattle.std.specs.Prelude.{◌≡◌, ◌≢◌, ◌<◌, ◌≤◌, ◌⊎◌, All, length, Err, IfOk, IfErr, OnOk, OnErr, IfSome, IfNone, MatchResult};
ghost use Rattle.mt_io.specs.Faults.{Rose};
ghost use Rattle.mt_answer.specs.Answers.{shown};
ghost use Rattle.mt_publish.specs.States.{IsNew, IsFrontOf};
ghost use Rattle.mt_service.specs.declared.opening.OpenRefused.TheVariants as refused;
ghost use Rattle.mt_service.specs.Opening.{IsOpening};
ghost use Rattle.mt_service.specs.Records.{StandFor, IsKept, ArePut};
ghost use Rattle.mt_service.specs.Steps.{IsStep};
ghost use Rattle.mt_service.specs.Telling.{AreTold};
ghost use Rattle.mt_server.specs.Desks.{IfLoaded, IsUnfinished};
ghost use Rattle.mt_server.specs.Replies.{IsAnswer};

use crate::desk::{Done, Looked};
use crate::replies::answer_at;
use mt_answer::Answer;
use mt_cells::{Bounds, Question, RuleSet};
use mt_derive::Event;
use mt_feed::Feed;
use mt_keeper::Keeper;
use mt_publish::{Front, Opened, Publisher, Viewer, open};
use mt_service::{OpenRefused, Outcome, Service};
use mt_table::Table;
use std::alloc::{AllocError, Global};
use std::marker::Model;
use std::sync::Wait;

/// The accepted list with its keeper and its publication. At most one event is accepted and not
/// published: it is outstanding.
#[derive(Drop)]
pub struct History<K: Keeper> {
    service: Service,
    keeper: K,
    publisher: Publisher<Table, Event>,
}

impl<K: Keeper> Model for History<K> {
    ghost use Rattle.std.specs.Prelude.{◌≡◌};
    ghost use Rattle.mt_service.specs.Records.{IsKept};
    ghost use Rattle.mt_server.specs.Desks.{HistoryState, IsBehind};

    ghost Value = { HistoryState K };

    ghost view = { λ h. record {
      publication = h.publisher.publication;
      accepted = h.service.events;
      published = h.publisher.list;
      keeper = h.keeper;
    } };

    ghost invariant = { λ h. (h.publisher.publication.base.bounds ≡ h.service.bounds)
        × (h.publisher.publication.base.rules ≡ h.service.rules)
        × IsBehind h.service.bounds h.publisher.list h.service.events
        × IsKept h.service.bounds (K.records h.keeper) h.service.events };
}

impl<K: Keeper> History<K> {
    /// The history of a service and a publisher of its list.
    pub(crate) fn of(service: Service, keeper: K, publisher: Publisher<Table, Event>) -> History<K>
        requires bounds { publisher.publication.base.bounds ≡ service.bounds }
        requires rules { publisher.publication.base.rules ≡ service.rules }
        requires list { publisher.list ≡ service.events }
        requires kept { IsKept service.bounds (K.records keeper) service.events }
        ensures publication { result.publication ≡ publisher.publication }
        ensures accepted { result.accepted ≡ service.events }
        ensures published { result.published ≡ service.events }
        ensures keeper { result.keeper ≡ keeper }
    {
        History {
            service,
            keeper,
            publisher,
        }
    }

    // Publishes what is outstanding, and gives a front.
    fn catch_up<R: Wait>(
        &mut self,
        rt: &R,
        alloc: Global,
    ) -> Result<Front<Table, Event>, AllocError>
        ensures publication { self.new.publication ≡ self.old.publication }
        ensures accepted { self.new.accepted ≡ self.old.accepted }
        ensures keeper { self.new.keeper ≡ self.old.keeper }
        ensures front { IfOk result (IsFrontOf self.old.publication self.old.accepted) }
        ensures published { MatchResult result (λ _. self.new.published ≡ self.old.accepted)
            (λ _. self.new.published ≡ self.old.published) }
    {
        let front = self.publisher.front();
        let version = self.service.table().version();
        if front.len() < version {
            let event = self.service.table().imports().event_of(alloc, version)?;
            return self.publisher.publish(rt, event);
        }
        Ok(front)
    }

    // Takes one step with the text, over a list that is published.
    fn accept(
        &mut self,
        alloc: Global,
        feeds: &mut Vec<Box<dyn Feed + Send>>,
        text: &[u8],
    ) -> Outcome
        requires { self.old.published ≡ self.old.accepted }
        ensures publication { self.new.publication ≡ self.old.publication }
        ensures published { self.new.published ≡ self.old.published }
        ensures step { IsStep self.old.publication.base.bounds self.old.publication.base.rules
            self.old.accepted text.now result self.new.accepted }
        ensures later { K.faults self.old.keeper ≤ K.faults self.new.keeper }
        ensures fault { result ≡ Outcome.KeeperFault
            → Rose (K.faults self.old.keeper) (K.faults self.new.keeper) }
        ensures put { ArePut (K.records self.old.keeper) (K.records self.new.keeper)
            self.old.accepted self.new.accepted }
        ensures told { AreTold self.old.publication.base.bounds self.old.publication.base.rules
            (λ b. told b) (λ b. failures b) self.old.accepted self.new.accepted feeds.old.items
            feeds.new.items }
    {
        self.service.import(alloc, &mut self.keeper, feeds, text)
    }

    /// Publishes what is outstanding, takes one step with the text, and publishes the event that it
    /// appends.
    pub(crate) fn import<R: Wait>(
        &mut self,
        rt: &R,
        alloc: Global,
        feeds: &mut Vec<Box<dyn Feed + Send>>,
        text: &[u8],
    ) -> Done
        ensures publication { self.new.publication ≡ self.old.publication }
        ensures later { K.faults self.old.keeper ≤ K.faults self.new.keeper }
        ensures fault { result.outcome ≡ Outcome.KeeperFault
            → Rose (K.faults self.old.keeper) (K.faults self.new.keeper) }
        ensures put { ArePut (K.records self.old.keeper) (K.records self.new.keeper)
            self.old.accepted self.new.accepted }
        ensures told { AreTold self.old.publication.base.bounds self.old.publication.base.rules
            (λ b. told b) (λ b. failures b) self.old.accepted self.new.accepted feeds.old.items
            feeds.new.items }
        ensures front { IfSome result.front (λ f.
            IsFrontOf self.old.publication self.new.accepted f
            × (self.new.published ≡ self.new.accepted)) }
        ensures step { IfSome result.front (λ _. (result.outcome ≢ Outcome.Memory)
            × IsStep self.old.publication.base.bounds self.old.publication.base.rules
            self.old.accepted text.now result.outcome self.new.accepted) }
        ensures memory { IfNone result.front ((result.outcome ≡ Outcome.Memory)
            × IsUnfinished self.old.publication.base.bounds self.old.publication.base.rules
            text.now self.old.accepted self.old.published self.new.accepted
            self.new.published) }
    {
        if self.catch_up(rt, alloc).is_err() {
            return Done {
                outcome: Outcome::Memory,
                front: None,
            };
        }
        let outcome = self.accept(alloc, feeds, text);
        if let Outcome::Memory = outcome {
            return Done {
                outcome,
                front: None,
            };
        }
        match self.catch_up(rt, alloc) {
            Ok(front) => Done {
                outcome,
                front: Some(front),
            },
            Err(AllocError) => Done {
                outcome: Outcome::Memory,
                front: None,
            },
        }
    }

    // Answers over the accepted list.
    fn answered(
        &self,
        alloc: Global,
        question: &Question,
        at_least: u64,
    ) -> Result<Answer, AllocError>
        ensures { IfOk result (λ a. IsAnswer self.now.publication.base.bounds
            self.now.publication.base.rules self.now.accepted question.now at_least (shown a)) }
    {
        answer_at(alloc, self.service.table(), question, at_least)
    }

    /// Publishes what is outstanding, and answers over the accepted list.
    pub(crate) fn look<R: Wait>(
        &mut self,
        rt: &R,
        alloc: Global,
        question: &Question,
        at_least: u64,
    ) -> Result<Looked, AllocError>
        ensures publication { self.new.publication ≡ self.old.publication }
        ensures accepted { self.new.accepted ≡ self.old.accepted }
        ensures keeper { self.new.keeper ≡ self.old.keeper }
        ensures front { IfOk result
            (λ l. IsFrontOf self.old.publication self.old.accepted l.front) }
        ensures answer { IfOk result (λ l. IsAnswer self.old.publication.base.bounds
            self.old.publication.base.rules self.old.accepted question.now at_least
            (shown l.answer)) }
        ensures published { OnOk result (self.new.published ≡ self.old.accepted) }
        ensures memory { OnErr result ((self.new.published ≡ self.old.published)
            ⊎ (self.new.published ≡ self.old.accepted)) }
    {
        let front = self.catch_up(rt, alloc)?;
        let answer = self.answered(alloc, question, at_least)?;
        Ok(Looked { answer, front })
    }

    /// Ends the publication, and gives the keeper back.
    pub(crate) fn close<R: Wait>(self, rt: &R) -> K
        ensures keeper { result ≡ self.keeper }
        ensures kept { IsKept self.publication.base.bounds (K.records result) self.accepted }
    {
        let History {
            service: _,
            keeper,
            publisher,
        } = self;
        publisher.end(rt);
        keeper
    }
}

/// What a desk is made of, but for its keeper and its feeds.
#[derive(Drop)]
pub(crate) struct Prepared {
    pub(crate) service: Service,
    pub(crate) publisher: Publisher<Table, Event>,
    pub(crate) viewers: Vec<Viewer<Table, Event>>,
}

/// The service over the records of the keeper, and a publication of its list.
pub(crate) fn prepare<K: Keeper>(
    alloc: Global,
    keeper: &mut K,
    bounds: Bounds,
    rules: RuleSet,
    viewers: u32,
) -> Result<Prepared, OpenRefused>
    requires { (0 < viewers) × (viewers ≤ 16) }
    ensures service { IfOk result (λ p. (p.service.bounds ≡ bounds) × (p.service.rules ≡ rules)) }
    ensures base { IfOk result (λ p. (p.publisher.publication.base.bounds ≡ bounds)
        × (p.publisher.publication.base.rules ≡ rules)) }
    ensures list { IfOk result (λ p. p.publisher.list ≡ p.service.events) }
    ensures count { IfOk result (λ p. length p.viewers.items ≡ viewers) }
    ensures viewers { IfOk result (λ p. All (IsNew p.publisher.publication) p.viewers.items) }
    ensures loaded { IfOk result (λ p. IfLoaded (K.records keeper.old) (K.records keeper.new)
        (λ records. StandFor bounds records p.service.events)) }
    ensures kept { IfOk result (λ p. IsKept bounds (K.records keeper.new) p.service.events) }
    ensures refused { IfErr result (λ e. IfLoaded (K.records keeper.old) (K.records keeper.new)
        (λ records. IsOpening bounds records (Err e))) }
    ensures later { K.faults keeper.old ≤ K.faults keeper.new }
    ensures fault { IfErr result (λ e. e ≡ refused.KeeperFault
        → Rose (K.faults keeper.old) (K.faults keeper.new)) }
{
    let service = Service::open(alloc, keeper, bounds, rules)?;
    let Opened { publisher, viewers } = match published(alloc, service.table(), viewers) {
        Ok(opened) => opened,
        Err(AllocError) => return Err(OpenRefused::Memory),
    };
    Ok(Prepared {
        service,
        publisher,
        viewers,
    })
}

// A publication of the table's list.
fn published(alloc: Global, table: &Table, viewers: u32) -> Result<Opened<Table, Event>, AllocError>
    requires { (0 < viewers) × (viewers ≤ 16) }
    ensures base { IfOk result (λ o. (o.publisher.publication.base.bounds ≡ table.now.bounds)
        × (o.publisher.publication.base.rules ≡ table.now.rules)) }
    ensures list { IfOk result (λ o. o.publisher.list ≡ table.now.events) }
    ensures count { IfOk result (λ o. length o.viewers.items ≡ viewers) }
    ensures viewers { IfOk result (λ o. All (IsNew o.publisher.publication) o.viewers.items) }
{
    let first = table.copy(alloc)?;
    let second = table.copy(alloc)?;
    open(alloc, first, second, viewers)
}
