//! How a publisher brings a copy up to date, and hands it out to the viewers.
ghost use Rattle.std.specs.Prelude.{◌≡◌, ◌<◌, [], ◌∷◌, ◌++◌, IfSome, Some};
ghost use Rattle.std.specs.Arc.{arc_value};
ghost use Rattle.mt_publish.specs.Copies.{caught_up};
ghost use Rattle.mt_publish.specs.Stories.{story};
ghost use Rattle.mt_publish.specs.Rule.{list_of};
ghost use Rattle.mt_publish.specs.declared.role.Role.TheVariants.{Resting, Handing, Swapping};

use crate::board::{GiveBack, Place, Reach, Rest, SharedBoard};
use crate::growing::Growing;
use crossbeam_utils::Backoff;
use std::sync::{Arc, Wait};

/// Waits until nobody else has the copy, and appends the entry.
fn grow_alone<V: Growing<E>, E: Drop, R: Wait>(rt: &R, copy: &mut Arc<V>, entry: &E)
    requires { V.fits (V.base (arc_value copy.old)) (V.listed (arc_value copy.old)) entry.now }
    ensures base { V.base (arc_value copy.new) ≡ V.base (arc_value copy.old) }
    ensures list { V.listed (arc_value copy.new) ≡ V.listed (arc_value copy.old) ++ entry.now ∷ [] }
{
    let backoff = Backoff::new();
    for _ in rt.forever() {
        if let Some(value) = Arc::get_mut(copy) {
            value.grow(entry);
            return;
        }
        backoff.snooze();
    }
    unreachable!()
}

/// Appends the entry that the copy lacks, and then the new one.
pub fn bring_up<V: Growing<E>, E: Drop, R: Wait>(
    rt: &R,
    copy: &mut Arc<V>,
    last: Option<E>,
    entry: &E,
)
    requires last { IfSome last (λ e. V.fits (V.base (arc_value copy.old)) (V.listed (arc_value copy.old)) e) }
    requires entry { V.fits (V.base (arc_value copy.old)) (caught_up (V.listed (arc_value copy.old)) last) entry.now }
    ensures base { V.base (arc_value copy.new) ≡ V.base (arc_value copy.old) }
    ensures list { V.listed (arc_value copy.new)
        ≡ caught_up (V.listed (arc_value copy.old)) last ++ entry.now ∷ [] }
{
    if let Some(before) = last {
        grow_alone(rt, copy, &before);
    }
    grow_alone(rt, copy, entry);
}

/// One more owner of the copy. It waits only where the count of owners is full.
pub fn copy_of<V: Drop, R: Wait>(rt: &R, copy: &Arc<V>) -> Arc<V>
    ensures { arc_value result ≡ arc_value copy.now }
{
    let backoff = Backoff::new();
    for _ in rt.forever() {
        if let Ok(again) = Arc::try_clone(copy) {
            return again;
        }
        backoff.snooze();
    }
    unreachable!()
}

/// Waits until no viewer reads by the slot, and takes it.
fn reach<V: Growing<E>, E: Drop, R: Wait>(
    rt: &R,
    shared: &SharedBoard<V, E>,
    place: &mut Place<V, E>,
    i: usize,
)
    requires table { place.old.table_id ≡ shared.now.table_id }
    requires inside { (i < shared.now.table_id.words) × (i < shared.now.table_id.slots) }
    requires handing { place.old.me ≡ (Handing (list_of place.old.me.0) i, []) }
    ensures same { (place.new.table_id ≡ place.old.table_id) × (place.new.id ≡ place.old.id) }
    ensures took { (a : _) × (place.new.me ≡ (Swapping (list_of place.old.me.0) i, (i, Some a) ∷ [])) }
{
    let backoff = Backoff::new();
    for _ in rt.forever() {
        if shared.compare_exchange::<Reach>(place, i, 0, 1) == 0 {
            return;
        }
        backoff.snooze();
    }
    unreachable!()
}

/// Puts the new copy in each slot, and waits for a viewer that is reading.
pub fn hand_out<V: Growing<E>, E: Drop, R: Wait>(
    rt: &R,
    shared: &SharedBoard<V, E>,
    place: &mut Place<V, E>,
    count: usize,
    new: &Arc<V>,
)
    requires table { place.old.table_id ≡ shared.now.table_id }
    requires count { (shared.now.table_id.words ≡ count) × (shared.now.table_id.slots ≡ count) × (0 < count) }
    requires handing { place.old.me ≡ (Handing (story (V.base (arc_value new.now)) (V.listed (arc_value new.now))) 0, []) }
    ensures same { (place.new.table_id ≡ place.old.table_id) × (place.new.id ≡ place.old.id) }
    ensures rests { place.new.me ≡ (Resting (story (V.base (arc_value new.now)) (V.listed (arc_value new.now))), []) }
{
    for i in 0..count {
        let copy = copy_of(rt, new);
        reach(rt, shared, place, i);
        let before = shared.exchange(place, i, Some(copy));
        shared.store::<GiveBack>(place, i, 0);
        drop(before);
    }
    shared.load::<Rest>(place, 0);
}
