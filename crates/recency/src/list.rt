//! The list in an array of its own.
ghost use Rattle.std.specs.Prelude.{◌≡◌, ◌<◌, ◌≤◌, [], length, IfSome, nat_lt};
ghost use Rattle.std.specs.List.{remove};
ghost use Rattle.recency.specs.Places.{at_end, place_of, put_last};

use crate::{Keyed, find, move_to_end, put, remove};
use std::marker::Model;

/// At most `N` elements in the order of their use. No call allocates, so the elements stand in the front part of an
/// array, and how many there are stands beside it.
#[derive(Drop)]
pub struct RecencyList<E, const N: usize> {
    room: [E; N],
    held: usize,
}

// Clauses see the elements held, in their order.
impl<E, const N: usize> Model for RecencyList<E, N> {
    ghost use Rattle.std.specs.Prelude.{◌≡◌, ◌≤◌, List, length, take};

    ghost Value = { List E };

    ghost view = { λ l. take l.held l.room };

    ghost invariant = { λ l. (l.held ≤ N) × (length l.room ≡ N) };
}

impl<E: Copy, const N: usize> RecencyList<E, N> {
    /// No element is held. `spare` stands in every place of the array until an element does.
    pub fn new(spare: E) -> Self
        ensures { result ≡ [] }
    {
        RecencyList {
            room: [spare; N],
            held: 0,
        }
    }

    /// The elements, in their order.
    pub fn as_slice(&self) -> &[E]
        ensures value { result.now ≡ self.now }
        ensures few { length result.now ≤ N }
    {
        &self.room[..self.held]
    }

    /// The place of the first element with this key.
    pub fn find(&self, key: u32) -> Option<usize>
    where
        E: Keyed,
        ensures place { result ≡ place_of E.Keyed.key_of key self.now 0 }
        ensures within { IfSome result (λ i. i < length self.now) }
    {
        find(self.as_slice(), key)
    }

    /// The element at this place goes to the end, as by `move_to_end`.
    pub fn move_to_end(&mut self, place: usize) -> bool
        ensures answer { result ≡ nat_lt place (length self.old) }
        ensures after { self.new ≡ at_end self.old place }
        ensures few { length self.new ≤ N }
    {
        move_to_end(&mut self.room[..self.held], place)
    }

    /// The element at this place goes out. At a place past the end the list is left as it is.
    pub fn remove(&mut self, place: usize)
        ensures after { self.new ≡ remove self.old place }
        ensures few { length self.new ≤ N }
    {
        self.held = remove(&mut self.room[..self.held], place);
    }

    /// Puts an element last. Where `N` are held the first one goes out.
    pub fn put(&mut self, element: E)
        ensures after { self.new ≡ put_last N self.old element }
        ensures few { length self.new ≤ N }
    {
        self.held = put(&mut self.room, self.held, element);
    }

    /// All elements go out.
    pub fn clear(&mut self)
        ensures { self.new ≡ [] }
    {
        self.held = 0;
    }
}
