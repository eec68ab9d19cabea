//! A viewer, which waits for nobody.
ghost use Rattle.std.specs.Prelude.{◌≡◌, ◌<◌, [], ◌∷◌, Some, IfOk, IfSome, IfNone, MatchOption, MatchBool};
ghost use Rattle.std.specs.Arc.{arc_value};
ghost use Rattle.std.specs.Fn.{FnOnceReturnsAt};
ghost use mathlib.Core.List.{IsPrefix};
ghost use Rattle.mt_publish.specs.Prefixes.{AllPrefixes};
ghost use Rattle.mt_publish.specs.States.{Extends, IsNew, next_miss, shown};
ghost use Rattle.mt_publish.specs.Stories.{story};
ghost use Rattle.mt_publish.specs.Rule.{list_of, learnt_of};
ghost use Rattle.mt_publish.specs.declared.role.Role.TheVariants.{Seated, Reading, Noted};

use crate::board::{Bases, Board, Enter, Fronts, Leave, Place, SharedBoard, Sit};
use crate::front::Front;
use crate::growing::Growing;
use crossbeam_utils::Backoff;
use std::alloc::AllocError;
use std::marker::Model;
use std::sync::Arc;

/// A view gives up after so many tries at which the publisher had this viewer's slot in hand.
const TRIES: u32 = 64;

/// One reader of a publication, which contracts see as what it has seen and learnt.
#[derive(Drop)]
pub struct Viewer<V: Growing<E>, E> {
    board: Arc<Board<V, E>>,
    place: Place<V, E>,
    /// The number of its word and of its slot.
    index: usize,
    /// The greatest number of entries that it has seen or learnt.
    most: u32,
    /// How many views answered None.
    missed: u64,
}

impl<V: Growing<E>, E> Model for Viewer<V, E> {
    ghost use Rattle.std.specs.Prelude.{◌≡◌, ◌<◌, [], map, length, max};
    ghost use Rattle.std.specs.Arc.{arc_value};
    ghost use Rattle.mt_publish.specs.Prefixes.{longest};
    ghost use Rattle.mt_publish.specs.States.{ViewerState};
    ghost use Rattle.mt_publish.specs.Stories.{story, story_entries};
    ghost use Rattle.mt_publish.specs.Rule.{list_of, learnt_of};
    ghost use Rattle.mt_publish.specs.declared.role.Role.TheVariants.{Seated};

    ghost Value = { ViewerState V.Base E };

    ghost view = { λ v. record {
      publication = record { identity = v.place.table_id; base = V.base (arc_value v.board).shared.key.value };
      seen = story_entries (list_of v.place.me.0);
      learnt = map story_entries (learnt_of v.place.me.0);
      missed = v.missed;
    } };

    ghost invariant = { λ v. (v.place.table_id ≡ (arc_value v.board).shared.table_id)
        × (v.index < v.place.table_id.words) × (v.index < v.place.table_id.slots)
        × (v.place.me ≡ (
          Seated v.index
              (story (V.base (arc_value v.board).shared.key.value) (story_entries (list_of v.place.me.0)))
              (learnt_of v.place.me.0),
          [],
        ))
        × (v.most ≡ max (length (story_entries (list_of v.place.me.0)))
        (longest (map story_entries (learnt_of v.place.me.0)))) };
}

/// Takes the viewer's slot, where within some tries nobody else has it in hand.
fn enter<V: Growing<E>, E>(
    shared: &SharedBoard<V, E>,
    place: &mut Place<V, E>,
    index: usize,
) -> bool
    requires table { place.old.table_id ≡ shared.now.table_id }
    requires inside { (index < shared.now.table_id.words) × (index < shared.now.table_id.slots) }
    requires viewer { place.old.me ≡ (Seated index (list_of place.old.me.0) (learnt_of place.old.me.0), []) }
    ensures same { place.new.table_id ≡ place.old.table_id }
    ensures entered { MatchBool result ((a : _)
        × (place.new.me ≡ (Reading index (story (V.base (arc_value a)) (V.listed (arc_value a))), (index, Some a) ∷ []))
        × IsPrefix (list_of place.old.me.0) (story (V.base (arc_value a)) (V.listed (arc_value a)))
        × AllPrefixes (story (V.base (arc_value a)) (V.listed (arc_value a))) (learnt_of place.old.me.0))
        (place.new.me ≡ place.old.me) }
{
    let backoff = Backoff::new();
    for _ in 0..TRIES {
        if shared.compare_exchange::<Enter<V>>(place, index, 0, 1) == 0 {
            return true;
        }
        backoff.spin();
    }
    false
}

impl<V: Growing<E>, E> Viewer<V, E> {
    /// The viewer of slot `index`, which has seen no entry. `base` tells it the base.
    pub(crate) fn seat(
        board: &Arc<Board<V, E>>,
        index: usize,
        base: Place<V, E>,
    ) -> Result<Viewer<V, E>, AllocError>
        requires inside { (index < (arc_value board.now).shared.table_id.words) × (index < (arc_value board.now).shared.table_id.slots) }
        requires base { (base.table_id ≡ (arc_value board.now).shared.table_id)
            × (base.me ≡ (Noted (story (V.base (arc_value board.now).shared.key.value) []), [])) }
        ensures new { IfOk result (λ v. IsNew record {
          identity = (arc_value board.now).shared.table_id;
          base = V.base (arc_value board.now).shared.key.value;
        } v) }
    {
        let board = Arc::try_clone(board)?;
        let mut place = board.shared.load_new_seat::<Sit>(index).1;
        board.shared.join_seat::<Bases>(&mut place, base);
        Ok(Viewer {
            board,
            place,
            index,
            most: 0,
            missed: 0,
        })
    }

    /// How many views answered None. The count stays at `u64::MAX`.
    pub fn missed(&self) -> u64
        ensures { result ≡ self.now.missed }
    {
        self.missed
    }

    /// The greatest number of entries that this viewer has seen or learnt.
    pub fn shown(&self) -> u32
        ensures { result ≡ shown self.now }
    {
        self.most
    }

    /// Takes in a front of this publication: the list of each later view extends the front's. It
    /// takes no memory and waits for nobody.
    pub fn learn(&mut self, front: Front<V, E>)
        requires { front.identity ≡ self.old.publication.identity }
        ensures publication { self.new.publication ≡ self.old.publication }
        ensures seen { self.new.seen ≡ self.old.seen }
        ensures learnt { self.new.learnt ≡ front.list ∷ self.old.learnt }
        ensures missed { self.new.missed ≡ self.old.missed }
    {
        let Front { place, len } = front;
        let shared = &self.board.shared;
        shared.join_seat::<Fronts>(&mut self.place, place);
        self.most = self.most.max(len);
    }

    /// Calls `read` once with the value that is shown, and gives its answer. The value has the base
    /// of the publication, and its list extends all that this viewer has seen and learnt. None, which
    /// may come at any time, says that the publisher had this viewer's slot in hand at each of a few
    /// tries; `read` is then not called, and one miss more is counted. It takes no memory and waits
    /// for nobody.
    pub fn view<T, F: FnOnce(&V) -> T + Drop>(&mut self, read: F) -> Option<T>
        requires { F.IsAlwaysCallable read }
        ensures publication { self.new.publication ≡ self.old.publication }
        ensures extends { IfSome result (λ _. Extends self.new.seen self.old × (self.new.learnt ≡ [])) }
        ensures read { IfSome result (λ answer. (x : V) × (V.base x ≡ self.new.publication.base)
            × (V.listed x ≡ self.new.seen) × FnOnceReturnsAt F.FnOnce read x answer) }
        ensures none { IfNone result ((self.new.seen ≡ self.old.seen) × (self.new.learnt ≡ self.old.learnt)) }
        ensures missed { MatchOption result (self.new.missed ≡ next_miss self.old.missed)
            (λ _. self.new.missed ≡ self.old.missed) }
    {
        let shared = &self.board.shared;
        let index = self.index;
        if !enter(shared, &mut self.place, index) {
            self.missed = self.missed.saturating_add(1);
            return None;
        }
        let copy = shared.exchange(&mut self.place, index, None).unwrap();
        let answer = read(&copy);
        self.most = copy.entries();
        shared.exchange(&mut self.place, index, Some(copy));
        shared.store::<Leave>(&mut self.place, index, 0);
        Some(answer)
    }
}
