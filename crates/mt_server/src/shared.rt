//! A desk that threads share, and their way to it.
ghost use Rattle.std.specs.Prelude.{◌≡◌, IfOk, MatchOption};
ghost use Rattle.mt_answer.specs.Answers.{shown};
ghost use Rattle.mt_server.specs.Offices.{IsImported};
ghost use Rattle.mt_server.specs.Replies.{IsAnswer};

use crate::desk::{Desk, Done, Looked};
use crate::history::History;
use crate::office::Office;
use mt_cells::Question;
use mt_feed::Feed;
use mt_keeper::Keeper;
use mt_service::Outcome;
use std::alloc::{AllocError, Global};
use std::marker::{Brand, Model, PhantomData};
use std::sync::{Mutex, Wait};

/// Names one publication. A caller picks which.
pub trait Naming {
    ghost use Rattle.mt_publish.specs.States.{Publication};
    ghost use Rattle.mt_table.specs.declared.published.Base.{Base};

    ghost publication: { Publication Base };
}

impl Naming for Brand {
    ghost use Rattle.mt_server.specs.Offices.{no_publication};

    ghost publication = { no_publication };
}

/// A history of the publication that `N` names.
#[derive(Drop)]
pub struct NamedHistory<K: Keeper, N: Naming> {
    history: History<K>,
    naming: PhantomData<N>,
}

impl<K: Keeper, N: Naming> Model for NamedHistory<K, N> {
    ghost use Rattle.std.specs.Prelude.{◌≡◌};
    ghost use Rattle.mt_server.specs.Desks.{HistoryState};

    ghost Value = { HistoryState K };

    ghost view = { λ h. h.history };

    ghost invariant = { λ h. h.history.publication ≡ N.publication };
}

impl<K: Keeper, N: Naming> NamedHistory<K, N> {
    // What the office promises of an import.
    fn import<R: Wait>(
        &mut self,
        rt: &R,
        alloc: Global,
        feeds: &mut Vec<Box<dyn Feed + Send>>,
        text: &[u8],
    ) -> Done
        ensures { MatchOption result.front (result.outcome ≡ Outcome.Memory)
            (λ f. (f.identity ≡ N.publication.identity)
            × IsImported N.publication.base text.now result.outcome f.list) }
    {
        self.history.import(rt, alloc, feeds, text)
    }

    // What the office promises of a look.
    fn look<R: Wait>(
        &mut self,
        rt: &R,
        alloc: Global,
        question: &Question,
        at_least: u64,
    ) -> Result<Looked, AllocError>
        ensures { IfOk result (λ l. (l.front.identity ≡ N.publication.identity)
            × IsAnswer N.publication.base.bounds N.publication.base.rules l.front.list
            question.now at_least (shown l.answer)) }
    {
        self.history.look(rt, alloc, question, at_least)
    }
}

/// A desk of the publication that `N` names, to be shared under a lock.
#[derive(Drop)]
pub struct Shared<K: Keeper, N: Naming> {
    pub history: NamedHistory<K, N>,
    pub feeds: Vec<Box<dyn Feed + Send>>,
}

impl<K: Keeper, N: Naming> Shared<K, N> {
    /// The desk, to be shared.
    pub fn new(desk: Desk<K>) -> Shared<K, N>
        requires { desk.history.publication ≡ N.publication }
        ensures history { result.history ≡ desk.history }
        ensures feeds { result.feeds ≡ desk.feeds }
    {
        let Desk { history, feeds } = desk;
        Shared {
            history: NamedHistory {
                history,
                naming: PhantomData,
            },
            feeds,
        }
    }

    /// The desk, which is shared no longer.
    pub fn into_desk(self) -> Desk<K>
        ensures history { result.history ≡ self.history }
        ensures feeds { result.feeds ≡ self.feeds }
        ensures publication { result.history.publication ≡ N.publication }
    {
        let Shared { history, feeds } = self;
        let NamedHistory { history, naming: _ } = history;
        Desk { history, feeds }
    }

    fn import<R: Wait>(&mut self, rt: &R, alloc: Global, text: &[u8]) -> Done
        ensures { MatchOption result.front (result.outcome ≡ Outcome.Memory)
            (λ f. (f.identity ≡ N.publication.identity)
            × IsImported N.publication.base text.now result.outcome f.list) }
    {
        self.history.import(rt, alloc, &mut self.feeds, text)
    }

    fn look<R: Wait>(
        &mut self,
        rt: &R,
        alloc: Global,
        question: &Question,
        at_least: u64,
    ) -> Result<Looked, AllocError>
        ensures { IfOk result (λ l. (l.front.identity ≡ N.publication.identity)
            × IsAnswer N.publication.base.bounds N.publication.base.rules l.front.list
            question.now at_least (shown l.answer)) }
    {
        self.history.look(rt, alloc, question, at_least)
    }
}

/// One thread's way to a shared desk, which is locked for each call.
#[derive(Drop)]
pub struct LockedOffice<'a, K: Keeper, N: Naming, R: Wait> {
    rt: &'a R,
    desk: &'a Mutex<Shared<K, N>>,
    tally: u64,
    looks: u64,
}

impl<'a, K: Keeper, N: Naming, R: Wait> LockedOffice<'a, K, N, R> {
    /// An office over the desk, whose counts are 0.
    pub fn new(rt: &'a R, desk: &'a Mutex<Shared<K, N>>) -> LockedOffice<'a, K, N, R>
        ensures { (result.tally ≡ 0) × (result.looks ≡ 0) }
    {
        LockedOffice {
            rt,
            desk,
            tally: 0,
            looks: 0,
        }
    }
}

impl<'a, K: Keeper, N: Naming, R: Wait> Office for LockedOffice<'a, K, N, R> {
    ghost publication = { λ _. N.publication };

    ghost tally = { λ o. o.tally };

    ghost looks = { λ o. o.looks };

    fn import(&mut self, alloc: Global, text: &[u8]) -> Done {
        let done = self.desk.lock(self.rt).import(self.rt, alloc, text);
        if let Outcome::KeeperFault = done.outcome {
            self.tally = self.tally.saturating_add(1);
        }
        done
    }

    fn look(
        &mut self,
        alloc: Global,
        question: &Question,
        at_least: u64,
    ) -> Result<Looked, AllocError> {
        self.looks = self.looks.saturating_add(1);
        self.desk
            .lock(self.rt)
            .look(self.rt, alloc, question, at_least)
    }
}
