//! The desk: texts come to it one after the other, and what it accepts is kept, told and published.
ghost use Rattle.std.specs.Prelude.{◌≡◌, ◌≢◌, ◌<◌, ◌≤◌, ◌⊎◌, All, length, Err, IfOk, IfErr, OnOk, OnErr, IfSome, IfNone};
ghost use Rattle.mt_io.specs.Faults.{Rose};
ghost use Rattle.mt_answer.specs.Answers.{shown};
ghost use Rattle.mt_publish.specs.States.{IsNew, IsFrontOf};
ghost use Rattle.mt_service.specs.declared.opening.OpenRefused.TheVariants as refused;
ghost use Rattle.mt_service.specs.Opening.{IsOpening};
ghost use Rattle.mt_service.specs.Records.{StandFor, IsKept, ArePut};
ghost use Rattle.mt_service.specs.Steps.{IsStep};
ghost use Rattle.mt_service.specs.Telling.{AreTold};
ghost use Rattle.mt_server.specs.Desks.{IfLoaded, IsUnfinished, LeadTo, LeadPartly, import_of, LookPartly, look_happenings};
ghost use Rattle.mt_server.specs.Replies.{IsAnswer};

use crate::history::{History, Prepared, prepare};
use mt_answer::Answer;
use mt_cells::{Bounds, Question, RuleSet};
use mt_derive::Event;
use mt_feed::Feed;
use mt_keeper::Keeper;
use mt_publish::{Front, Viewer};
use mt_service::{OpenRefused, Outcome};
use mt_table::Table;
use std::alloc::{AllocError, Global};
use std::sync::Wait;

/// The accepted list with its keeper and its publication, and the feeds that are told of it.
#[derive(Drop)]
pub struct Desk<K: Keeper> {
    pub history: History<K>,
    pub feeds: Vec<Box<dyn Feed + Send>>,
}

/// A desk that was opened, and the viewers of its publication.
#[derive(Drop)]
pub struct OpenDesk<K: Keeper> {
    pub desk: Desk<K>,
    pub viewers: Vec<Viewer<Table, Event>>,
}

/// Why no desk was opened. The keeper and the feeds come back.
#[derive(Drop)]
pub struct DeskRefused<K: Keeper> {
    pub why: OpenRefused,
    pub keeper: K,
    pub feeds: Vec<Box<dyn Feed + Send>>,
}

/// What comes of a text, and a front of the list after it. The front is there for every outcome but
/// want of memory.
#[derive(Drop)]
pub struct Done {
    pub outcome: Outcome,
    pub front: Option<Front<Table, Event>>,
}

/// The answer to a question, and a front of the list that it is over.
#[derive(Drop)]
pub struct Looked {
    pub answer: Answer,
    pub front: Front<Table, Event>,
}

impl<K: Keeper> Desk<K> {
    /// A desk over the records of the keeper, with 1 to 16 viewers that have seen nothing. It refuses
    /// as [`Service::open`](mt_service::Service::open) does, or for want of memory; the keeper is then
    /// as its load left it, and the feeds are as they were.
    pub fn open(
        alloc: Global,
        keeper: K,
        feeds: Vec<Box<dyn Feed + Send>>,
        bounds: Bounds,
        rules: RuleSet,
        viewers: u32,
    ) -> Result<OpenDesk<K>, DeskRefused<K>>
        requires { (0 < viewers) × (viewers ≤ 16) }
        ensures bounds { IfOk result (λ o. o.desk.history.publication.base.bounds ≡ bounds) }
        ensures rules { IfOk result (λ o. o.desk.history.publication.base.rules ≡ rules) }
        ensures accepted { IfOk result (λ o. IfLoaded (K.records keeper)
            (K.records o.desk.history.keeper)
            (λ records. StandFor bounds records o.desk.history.accepted)) }
        ensures published { IfOk result
            (λ o. o.desk.history.published ≡ o.desk.history.accepted) }
        ensures count { IfOk result (λ o. length o.viewers.items ≡ viewers) }
        ensures viewers { IfOk result
            (λ o. All (IsNew o.desk.history.publication) o.viewers.items) }
        ensures refused { IfErr result (λ d. IfLoaded (K.records keeper) (K.records d.keeper)
            (λ records. IsOpening bounds records (Err d.why))) }
        ensures later { IfOk result (λ o. K.faults keeper ≤ K.faults o.desk.history.keeper) }
        ensures fault { IfErr result (λ d. (K.faults keeper ≤ K.faults d.keeper)
            × (d.why ≡ refused.KeeperFault → Rose (K.faults keeper) (K.faults d.keeper))) }
        ensures feeds { IfOk result (λ o. o.desk.feeds ≡ feeds) }
        ensures feeds_back { IfErr result (λ d. d.feeds ≡ feeds) }
    {
        let mut keeper = keeper;
        match prepare(alloc, &mut keeper, bounds, rules, viewers) {
            Ok(prepared) => {
                let Prepared {
                    service,
                    publisher,
                    viewers,
                } = prepared;
                let history = History::of(service, keeper, publisher);
                Ok(OpenDesk {
                    desk: Desk { history, feeds },
                    viewers,
                })
            }
            Err(why) => Err(DeskRefused { why, keeper, feeds }),
        }
    }

    /// Publishes what is outstanding, takes one step with the text, publishes the event that it
    /// appends, and gives a front. It waits for viewers that are reading. Where memory is wanting the
    /// text may have been accepted and kept, and is outstanding then: the same text again answers that
    /// it is already there.
    pub fn import<R: Wait>(&mut self, rt: &R, alloc: Global, text: &[u8]) -> Done
        ensures publication { self.new.history.publication ≡ self.old.history.publication }
        ensures later { K.faults self.old.history.keeper ≤ K.faults self.new.history.keeper }
        ensures fault { result.outcome ≡ Outcome.KeeperFault
            → Rose (K.faults self.old.history.keeper) (K.faults self.new.history.keeper) }
        ensures put { ArePut (K.records self.old.history.keeper)
            (K.records self.new.history.keeper) self.old.history.accepted
            self.new.history.accepted }
        ensures told { AreTold self.old.history.publication.base.bounds
            self.old.history.publication.base.rules (λ b. told b) (λ b. failures b)
            self.old.history.accepted self.new.history.accepted self.old.feeds.items
            self.new.feeds.items }
        ensures front { IfSome result.front (λ f.
            IsFrontOf self.old.history.publication self.new.history.accepted f
            × (self.new.history.published ≡ self.new.history.accepted)) }
        ensures step { IfSome result.front (λ _. (result.outcome ≢ Outcome.Memory)
            × IsStep self.old.history.publication.base.bounds
            self.old.history.publication.base.rules self.old.history.accepted text.now
            result.outcome self.new.history.accepted) }
        ensures happens { IfSome result.front (λ _.
            LeadTo self.old.history.publication.base.bounds
            self.old.history.publication.base.rules
            (import_of text.now result.outcome self.new.history.accepted)
            self.old.history.accepted self.old.history.published self.new.history.accepted
            self.new.history.published) }
        ensures memory { IfNone result.front ((result.outcome ≡ Outcome.Memory)
            × IsUnfinished self.old.history.publication.base.bounds
            self.old.history.publication.base.rules text.now self.old.history.accepted
            self.old.history.published self.new.history.accepted self.new.history.published) }
        ensures partly { IfNone result.front (LeadPartly
            self.old.history.publication.base.bounds self.old.history.publication.base.rules
            text.now self.old.history.accepted self.old.history.published
            self.new.history.accepted self.new.history.published) }
    {
        self.history.import(rt, alloc, &mut self.feeds, text)
    }

    /// Publishes what is outstanding, and answers a question over the accepted list, which is to have
    /// `at_least` events, with a front of it. It waits for viewers that are reading, and fails only for
    /// want of memory.
    pub fn look<R: Wait>(
        &mut self,
        rt: &R,
        alloc: Global,
        question: &Question,
        at_least: u64,
    ) -> Result<Looked, AllocError>
        ensures publication { self.new.history.publication ≡ self.old.history.publication }
        ensures accepted { self.new.history.accepted ≡ self.old.history.accepted }
        ensures keeper { self.new.history.keeper ≡ self.old.history.keeper }
        ensures feeds { self.new.feeds ≡ self.old.feeds }
        ensures front { IfOk result
            (λ l. IsFrontOf self.old.history.publication self.old.history.accepted l.front) }
        ensures answer { IfOk result (λ l. IsAnswer self.old.history.publication.base.bounds
            self.old.history.publication.base.rules self.old.history.accepted question.now
            at_least (shown l.answer)) }
        ensures published { OnOk result
            (self.new.history.published ≡ self.new.history.accepted) }
        ensures happens { OnOk result (LeadTo self.old.history.publication.base.bounds
            self.old.history.publication.base.rules look_happenings self.old.history.accepted
            self.old.history.published self.new.history.accepted
            self.new.history.published) }
        ensures memory { OnErr result
            ((self.new.history.published ≡ self.old.history.published)
            ⊎ (self.new.history.published ≡ self.new.history.accepted)) }
        ensures partly { OnErr result (LookPartly self.old.history.publication.base.bounds
            self.old.history.publication.base.rules self.old.history.accepted
            self.old.history.published self.new.history.accepted
            self.new.history.published) }
    {
        self.history.look(rt, alloc, question, at_least)
    }

    /// Ends the publication, and gives the keeper and the feeds back. It takes no memory.
    pub fn close<R: Wait>(self, rt: &R) -> (K, Vec<Box<dyn Feed + Send>>)
        ensures keeper { result.0 ≡ self.history.keeper }
        ensures kept { IsKept self.history.publication.base.bounds (K.records result.0)
            self.history.accepted }
        ensures feeds { result.1 ≡ self.feeds }
    {
        let Desk { history, feeds } = self;
        (history.close(rt), feeds)
    }
}
