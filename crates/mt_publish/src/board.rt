//! The table that the publisher and the viewers share. The slot of a viewer has the copy that it is
//! shown, and the word of the same number is 1 while that slot is in a hand, else 0.
ghost use Rattle.std.specs.Prelude.{[]};
ghost use Rattle.std.specs.Arc.{arc_value};
ghost use Rattle.mt_publish.specs.Stories.{story};
ghost use Rattle.mt_publish.specs.Rule.{Kept, sat, entered, returned, announced, reached, swapped, rested, front_of, told, base_of, begun};
ghost use Rattle.mt_publish.specs.declared.role.Role.TheVariants.{Spent, Resting};

use crate::growing::Growing;
use crate::role::{Item, Role};
use atomic_table::{Join, Play, Seat, Shared, Split, Table, TableRule};
use std::alloc::Global;
use std::marker::PhantomData;
use std::snapshot::Snapshot;
use std::sync::Arc;

/// The rule that every step keeps. The table's key is a value of the publication, for its base.
pub struct Rule<V, E> {
    of: PhantomData<(V, E)>,
}

impl<V: Growing<E>, E> TableRule<
    Option<Arc<V>>,
    Role<Item<<V as Growing<E>>::Base, E>>,
    Snapshot<V>,
> for Rule<V, E> {
    ghost holds = { λ key. Kept (λ a. story (V.base (arc_value a)) (V.listed (arc_value a))) };

    ghost first = { λ key. Resting (story (V.base key.value) (V.listed key.value)) };
}

/// The table with its memory.
pub type Board<V, E> = Table<
    Option<Arc<V>>,
    Role<Item<<V as Growing<E>>::Base, E>>,
    Snapshot<V>,
    Rule<V, E>,
    Global,
>;

/// The table as steps meet it.
pub type SharedBoard<V, E> = Shared<
    Option<Arc<V>>,
    Role<Item<<V as Growing<E>>::Base, E>>,
    Snapshot<V>,
    Rule<V, E>,
>;

/// A seat of the publisher, of a viewer or of a front. It has no bytes.
pub type Place<V, E> = Seat<Option<Arc<V>>, Role<Item<<V as Growing<E>>::Base, E>>>;

/// A new viewer sits down.
pub struct Sit;

impl<V, I> Play<Option<Arc<V>>, Role<I>> for Sit {
    ghost then = { sat };
}

/// A viewer takes its slot.
pub struct Enter<V> {
    of: PhantomData<V>,
}

impl<V: Growing<E>, E> Play<Option<Arc<V>>, Role<Item<<V as Growing<E>>::Base, E>>> for Enter<V> {
    ghost then = { entered (λ a. story (V.base (arc_value a)) (V.listed (arc_value a))) };
}

/// A viewer gives its slot back.
pub struct Leave;

impl<V, I> Play<Option<Arc<V>>, Role<I>> for Leave {
    ghost then = { returned };
}

/// The publisher makes the list of a copy the published one.
pub struct Announce<V> {
    of: PhantomData<V>,
}

impl<V: Growing<E>, E> Play<Option<Arc<V>>, Role<Item<<V as Growing<E>>::Base, E>>>
    for Announce<V> {
    ghost then = { announced (λ a. story (V.base (arc_value a)) (V.listed (arc_value a))) };
}

/// The publisher takes the next slot.
pub struct Reach;

impl<V, I> Play<Option<Arc<V>>, Role<I>> for Reach {
    ghost then = { reached };
}

/// The publisher gives that slot back, with the new copy.
pub struct GiveBack;

impl<V, I> Play<Option<Arc<V>>, Role<I>> for GiveBack {
    ghost then = { swapped };
}

/// Every slot has the new copy.
pub struct Rest;

impl<V, I> Play<Option<Arc<V>>, Role<I>> for Rest {
    ghost then = { rested };
}

/// The publisher makes a front, and a viewer learns it.
pub struct Fronts;

impl<I> Split<Role<I>> for Fronts {
    ghost left = { λ r. r };

    ghost right = { front_of };
}

impl<I> Join<Role<I>> for Fronts {
    ghost both = { told };

    ghost spent = { Spent };
}

/// The publisher tells a new viewer the base, which this counts as seen.
pub struct Bases;

impl<B, E> Split<Role<Item<B, E>>> for Bases {
    ghost left = { λ r. r };

    ghost right = { base_of };
}

impl<I> Join<Role<I>> for Bases {
    ghost both = { begun };

    ghost spent = { Spent };
}
