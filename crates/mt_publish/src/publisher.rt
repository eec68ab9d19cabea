//! The publisher, and how a publication is opened.
ghost use Rattle.std.specs.Prelude.{◌≡◌, ◌*◌, ◌<◌, ◌≤◌, [], ◌∷◌, ◌++◌, All, IsSomeAnd, length, IfOk, OnOk, MatchResult};
ghost use Rattle.std.specs.Arc.{arc_value};
ghost use Rattle.mt_publish.specs.States.{IsNew, IsFrontOf};
ghost use Rattle.mt_publish.specs.Stories.{story};
ghost use Rattle.mt_publish.specs.declared.publisher.TheConstants.{SPREAD};
ghost use Rattle.mt_publish.specs.declared.role.Role.TheVariants.{Noted};

use crate::board::{Announce, Bases, Board, Fronts, Place};
use crate::front::Front;
use crate::growing::Growing;
use crate::handing::{bring_up, copy_of, hand_out};
use crate::viewer::Viewer;
use atomic_table::Table;
use std::alloc::{AllocError, Global};
use std::marker::Model;
use std::snapshot::Snapshot;
use std::sync::{Arc, Wait};

/// So many words, of 8 bytes each, lie from one viewer's word to the next one's, and so many slots from
/// slot to slot: 128 bytes, so that no two viewers change one line of a cache. Those between belong to no
/// viewer, and a publish treats them like the others.
const SPREAD: usize = 16;

/// The one writer of a publication, which contracts see as the publication and the published list.
#[derive(Drop)]
pub struct Publisher<V: Growing<E>, E: Drop> {
    board: Arc<Board<V, E>>,
    place: Place<V, E>,
    /// How many words and slots there are.
    count: usize,
    /// The copy that viewers are shown.
    shown: Arc<V>,
    /// The other copy, which lacks `last`.
    spare: Arc<V>,
    last: Option<E>,
}

impl<V: Growing<E>, E: Drop> Model for Publisher<V, E> {
    ghost use Rattle.std.specs.Prelude.{◌≡◌, ◌<◌, [], IfSome};
    ghost use Rattle.std.specs.Arc.{arc_value};
    ghost use Rattle.mt_publish.specs.States.{PublisherState};
    ghost use Rattle.mt_publish.specs.Copies.{caught_up};
    ghost use Rattle.mt_publish.specs.Stories.{story};
    ghost use Rattle.mt_publish.specs.declared.role.Role.TheVariants.{Resting};

    ghost Value = { PublisherState V.Base E };

    ghost view = { λ p. record {
      publication = record { identity = p.place.table_id; base = V.base (arc_value p.shown) };
      list = V.listed (arc_value p.shown);
    } };

    ghost invariant = { λ p. (p.place.table_id ≡ (arc_value p.board).shared.table_id)
        × (p.place.table_id.words ≡ p.count) × (p.place.table_id.slots ≡ p.count) × (0 < p.count)
        × (V.base (arc_value p.board).shared.key.value ≡ V.base (arc_value p.shown))
        × (p.place.me ≡ (Resting (story (V.base (arc_value p.shown)) (V.listed (arc_value p.shown))), []))
        × (V.base (arc_value p.shown) ≡ V.base (arc_value p.spare))
        × IfSome p.last (λ e. V.fits (V.base (arc_value p.spare)) (V.listed (arc_value p.spare)) e)
        × (V.listed (arc_value p.shown) ≡ caught_up (V.listed (arc_value p.spare)) p.last) };
}

/// A publication that was opened: its publisher, and its viewers.
#[derive(Drop)]
pub struct Opened<V: Growing<E>, E: Drop> {
    pub publisher: Publisher<V, E>,
    pub viewers: Vec<Viewer<V, E>>,
}

/// A publication of the list that both values stand for, and 1 to 16 viewers of it that have seen
/// nothing. It refuses with `AllocError`, and takes all the memory that the publication ever needs but
/// for what the entries bring.
pub fn open<V: Growing<E>, E: Drop>(
    alloc: Global,
    first: V,
    second: V,
    viewers: u32,
) -> Result<Opened<V, E>, AllocError>
    requires base { V.base first ≡ V.base second }
    requires list { V.listed first ≡ V.listed second }
    requires count { (0 < viewers) × (viewers ≤ 16) }
    ensures base { IfOk result (λ o. o.publisher.publication.base ≡ V.base first) }
    ensures list { IfOk result (λ o. o.publisher.list ≡ V.listed first) }
    ensures count { IfOk result (λ o. length o.viewers.items ≡ viewers) }
    ensures viewers { IfOk result (λ o. All (IsNew o.publisher.publication) o.viewers.items) }
{
    let count = SPREAD * viewers as usize;
    let about = Snapshot::of(&first);
    let shown = Arc::new(alloc, first)?;
    let spare = Arc::new(alloc, second)?;
    let words = Vec::from_elem(alloc, 0u64, count)?;
    let slots = copies(alloc, &shown, count)?;
    let (table, place): (Board<V, E>, Place<V, E>) = match Table::new(
        alloc,
        words.as_slice(),
        slots,
        &about,
    ) {
        Ok(made) => made,
        Err(_) => return Err(AllocError),
    };
    let board = Arc::new(alloc, table)?;
    let mut publisher = Publisher {
        board,
        place,
        count,
        shown,
        spare,
        last: None,
    };
    let viewers = seated(alloc, &mut publisher, viewers as usize)?;
    Ok(Opened { publisher, viewers })
}

/// As many owners of the copy.
fn copies<V: Drop>(
    alloc: Global,
    shown: &Arc<V>,
    count: usize,
) -> Result<Vec<Option<Arc<V>>>, AllocError>
    ensures { IfOk result (λ v. (length v.items ≡ count)
        × All (λ s. IsSomeAnd s (λ a. arc_value a ≡ arc_value shown.now)) v.items) }
{
    let mut slots = Vec::new(alloc);
    for i in 0..count {
        let _number = i;
        slots.push(Some(Arc::try_clone(shown)?))?;
    }
    Ok(slots)
}

/// So many viewers, each with a word and a slot.
fn seated<V: Growing<E>, E: Drop>(
    alloc: Global,
    publisher: &mut Publisher<V, E>,
    count: usize,
) -> Result<Vec<Viewer<V, E>>, AllocError>
    requires words { SPREAD * count ≤ publisher.old.publication.identity.words }
    requires slots { SPREAD * count ≤ publisher.old.publication.identity.slots }
    ensures same { OnOk result (publisher.new ≡ publisher.old) }
    ensures count { IfOk result (λ v. length v.items ≡ count) }
    ensures viewers { IfOk result (λ v. All (IsNew publisher.old.publication) v.items) }
{
    let mut viewers = Vec::new(alloc);
    for i in 0..count {
        let base = publisher.tell_base();
        let viewer = Viewer::seat(&publisher.board, SPREAD * i, base)?;
        viewers.push(viewer)?;
    }
    Ok(viewers)
}

impl<V: Growing<E>, E: Drop> Publisher<V, E> {
    /// What a new viewer is told.
    fn tell_base(&mut self) -> Place<V, E>
        ensures same { self.new ≡ self.old }
        ensures base { (result.table_id ≡ self.old.publication.identity)
            × (result.me ≡ (Noted (story self.old.publication.base []), [])) }
    {
        let shared = &self.board.shared;
        shared.split_seat::<Bases>(&mut self.place)
    }

    /// A token for the published list. It takes no memory.
    pub fn front(&mut self) -> Front<V, E>
        ensures same { self.new ≡ self.old }
        ensures front { IsFrontOf self.old.publication self.old.list result }
    {
        let len = self.shown.entries();
        let shared = &self.board.shared;
        let place = shared.split_seat::<Fronts>(&mut self.place);
        Front { place, len }
    }

    /// Publishes the list with the entry appended, at one step, and gives the front of the new list.
    /// It waits for each viewer that is reading at that moment. `AllocError` never comes, since this
    /// takes no memory; after it the list would be as before.
    pub fn publish<R: Wait>(&mut self, rt: &R, entry: E) -> Result<Front<V, E>, AllocError>
        requires { V.fits self.old.publication.base self.old.list entry }
        ensures publication { self.new.publication ≡ self.old.publication }
        ensures list { MatchResult result (λ _. self.new.list ≡ self.old.list ++ entry ∷ [])
            (λ _. self.new.list ≡ self.old.list) }
        ensures front { IfOk result (λ f. IsFrontOf self.new.publication self.new.list f) }
    {
        self.append(rt, entry);
        Ok(self.front())
    }

    /// Uses the publisher up. Its viewers go on with the list that was published last.
    pub fn end<R: Wait>(self, rt: &R) {
        let _ = rt;
        drop(self);
    }

    /// Appends the entry to the spare copy, hands it out, and makes the other copy the spare one.
    fn append<R: Wait>(&mut self, rt: &R, entry: E)
        requires { V.fits self.old.publication.base self.old.list entry }
        ensures publication { self.new.publication ≡ self.old.publication }
        ensures list { self.new.list ≡ self.old.list ++ entry ∷ [] }
    {
        bring_up(rt, &mut self.spare, self.last.take(), &entry);
        let new = Some(copy_of(rt, &self.spare));
        let shared = &self.board.shared;
        shared.compare_exchange_with::<Announce<V>>(&mut self.place, 0, 0, 0, &new);
        hand_out(rt, shared, &mut self.place, self.count, &self.spare);
        std::mem::swap(&mut self.shown, &mut self.spare);
        self.last = Some(entry);
    }
}
