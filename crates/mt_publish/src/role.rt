//! What a seat at the shared table knows.
use std::collections::LinkedList;

/// A part of a story, which is a base and then entries. No value of it is made.
pub enum Item<B, E> {
    Base(B),
    Entry(E),
}

/// A seat and the lists that it knows, each of items. No value of it is made.
pub enum Role<I> {
    /// A seat that was used up, or knows nothing.
    Spent,
    /// The publisher between two calls, with the published list.
    Resting(LinkedList<I>),
    /// The publisher with the published list, and how many slots' copies have it.
    Handing(LinkedList<I>, u64),
    /// The same, with the next slot in hand.
    Swapping(LinkedList<I>, u64),
    /// The number of a viewer's slot, the list of its last view, and the lists that it learnt since.
    Seated(u64, LinkedList<I>, LinkedList<LinkedList<I>>),
    /// The number of a viewer's slot, which it has in hand, and the list that it is shown.
    Reading(u64, LinkedList<I>),
    /// A front, with a list that every copy's list extends.
    Noted(LinkedList<I>),
}
