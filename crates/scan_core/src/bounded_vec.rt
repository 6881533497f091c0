//! Lists of bounded length that take no memory.
ghost use Rattle.std.specs.Prelude.{◌≡◌, ◌<◌, ◌≤◌, [], ◌∷◌, ◌++◌, IsSome, Some, length, remove, slice_index_or, slice_set};
ghost use Rattle.std.specs.Borrow.{sem};
ghost use Rattle.std.specs.Option.Follows.{option_follows_value};

use arrayvec::ArrayVec;
use std::marker::Model;

/// The number of elements that a list has room for.
pub(crate) const ROOM: usize = 64;

/// A list of at most `ROOM` elements, in place.
#[derive(Drop)]
pub(crate) struct BoundedVec<T> {
    items: ArrayVec<Option<T>, ROOM>,
}

/// A contract sees the list.
impl<T> Model for BoundedVec<T> {
    ghost use Rattle.std.specs.Prelude.{◌≡◌, List, map, Some};
    ghost use Rattle.std.specs.Coded.{coded_list};
    ghost use Rattle.scan_core.specs.BoundedVecs.{somes};

    ghost Value = { List T };

    ghost coded = { coded_list T.code };

    ghost view = { λ f. somes f.items.items };

    ghost invariant = { λ f. f.items.items ≡ map Some (somes f.items.items) };
}

impl<T> BoundedVec<T> {
    ghost use Rattle.scan_core.specs.Lends.{lends_at};

    /// A list of no elements.
    pub(crate) fn new() -> BoundedVec<T>
        ensures { result ≡ [] }
    {
        BoundedVec {
            items: ArrayVec::new(),
        }
    }

    /// How many elements there are.
    pub(crate) fn len(&self) -> usize
        ensures len { result ≡ length self.now }
        ensures few { result ≤ ROOM }
    {
        self.items.len()
    }

    /// The element at a place.
    pub(crate) fn get(&self, place: usize) -> &T
        requires { place < length self.now }
        ensures { result.now ≡ slice_index_or self.now place result.now }
    {
        match &self.items[place] {
            Some(item) => item,
            None => unreachable!(),
        }
    }

    /// The element at a place, for writing.
    pub(crate) fn get_mut(&mut self, place: usize) -> &mut T
        requires { place < length self.old }
        ensures* writes_back { sem 𝓛 (lends_at T.row self.entry place result) }
        ensures value { result.now ≡ slice_index_or self.old place result.now }
    {
        match self.items.get_mut(place) {
            Some(item) => element_of(item),
            None => unreachable!(),
        }
    }
}

/// The element of a place that has one, for writing.
fn element_of<T>(item: &mut Option<T>) -> &mut T
    requires { IsSome item.old }
    ensures* writes_back { sem 𝓛 (option_follows_value T.row item.entry result) }
    ensures value { item.old ≡ Some result.now }
{
    match item {
        Some(element) => element,
        None => unreachable!(),
    }
}

impl<T: Drop> BoundedVec<T> {
    /// Adds an element at the end.
    pub(crate) fn push(&mut self, item: T)
        requires { length self.old < ROOM }
        ensures { self.new ≡ self.old ++ item ∷ [] }
    {
        self.items.push(Some(item));
    }

    /// Puts an element in the place of another.
    pub(crate) fn set(&mut self, place: usize, item: T)
        requires { place < length self.old }
        ensures { self.new ≡ slice_set self.old place item }
    {
        *self.get_mut(place) = item;
    }

    /// Removes the element at a place. The elements after it move up by one place.
    pub(crate) fn remove(&mut self, place: usize)
        requires { place < length self.old }
        ensures { self.new ≡ remove self.old place }
    {
        self.items.remove(place);
    }
}
