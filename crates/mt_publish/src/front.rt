//! The token for a published list.
use crate::board::Place;
use crate::growing::Growing;
use std::marker::Model;

/// A token for a list that was published. A viewer that learns it is shown no list before it.
#[derive(Drop)]
pub struct Front<V: Growing<E>, E> {
    pub(crate) place: Place<V, E>,
    pub(crate) len: u32,
}

impl<V: Growing<E>, E> Model for Front<V, E> {
    ghost use Rattle.std.specs.Prelude.{◌≡◌, [], length};
    ghost use Rattle.mt_publish.specs.States.{FrontState};
    ghost use Rattle.mt_publish.specs.Stories.{story_entries};
    ghost use Rattle.mt_publish.specs.Rule.{list_of};
    ghost use Rattle.mt_publish.specs.declared.role.Role.TheVariants.{Noted};

    ghost Value = { FrontState E };

    ghost view = { λ f. record { identity = f.place.table_id; list = story_entries (list_of f.place.me.0) } };

    ghost invariant = { λ f. (f.place.me ≡ (Noted (list_of f.place.me.0), []))
        × (f.len ≡ length (story_entries (list_of f.place.me.0))) };
}

impl<V: Growing<E>, E> Front<V, E> {
    ghost use Rattle.std.specs.Prelude.{◌≡◌, length};

    /// The number of entries of the list.
    pub fn len(&self) -> u32
        ensures { result ≡ length self.now.list }
    {
        self.len
    }
}
