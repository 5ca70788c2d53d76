ghost use Rattle.std.specs.Prelude.{◌≡◌, ◌+◌, ◌^◌, ◌<◌, length, slice_get, slice_set, Some, IfOk};
ghost use Rattle.dali_ring.specs.Fresh.{fresh_to};
ghost use Rattle.dali_ring.specs.Linked.{slot_at};

use crate::block::{Origin, Places, Release, allocate, free};
use std::alloc::{AllocError, Global};
use std::marker::Model;
use std_alloc::room::may_hold;

/// A place for an item, and the number of the slot behind it.
#[derive(Clone, Copy, Drop)]
pub struct Slot<T> {
    /// The number of the next slot, or where the list ends.
    pub link: usize,
    /// The item, if the slot holds one.
    pub item: Option<T>,
}

/// Slots by their numbers, from 0 on, side by side in one block. Only `make` takes memory, and dropping the slots
/// frees it.
///
/// Contracts see the list of the slots. An item that is dropped with them is forgotten: it is `Copy`.
pub struct Slots<T> {
    origin: Origin<Slot<T>>,
    capacity: usize,
    places: Places<Slot<T>>,
    release: Release<Slot<T>, Global>,
    alloc: Global,
}

impl<T> Model for Slots<T> {
    ghost use Rattle.std.specs.Prelude.{◌≡◌, List, length};
    ghost use Rattle.dali_ring.specs.declared.slots.Slot.{Slot};

    ghost Value = { List (Slot T) };

    ghost view = { λ s. s.places.items };

    ghost invariant = { λ s. (s.places.origin ≡ s.origin.pointer) × (s.places.count ≡ s.capacity)
        × (length s.places.items ≡ s.capacity) × (s.release.origin ≡ s.origin.pointer)
        × (s.release.count ≡ s.capacity) × (s.release.alloc ≡ s.alloc) };
}

impl<T> Drop for Slots<T> {
    fn drop(self) {
        let Slots {
            origin,
            capacity,
            places,
            release,
            alloc,
        } = self;
        free(&alloc, origin, capacity, places, release);
    }
}

impl<T: Copy> Slots<T> {
    /// As many slots as are asked for. None has an item, and each leads to the one after it.
    pub(crate) fn make(alloc: Global, capacity: usize) -> Result<Slots<T>, AllocError>
        requires { capacity < 2 ^ 32 }
        ensures { IfOk result (λ s. s ≡ fresh_to capacity) }
    {
        if !may_hold::<Slot<T>>(capacity) {
            return Err(AllocError);
        }
        let (origin, mut places, release) = allocate(&alloc, capacity)?;
        for number in 0..capacity {
            let slot = Slot {
                link: number + 1,
                item: None,
            };
            places.put(origin, number, slot);
        }
        Ok(Slots {
            origin,
            capacity,
            places,
            release,
            alloc,
        })
    }

    /// The slot of a number.
    pub(crate) fn read(&self, number: usize) -> Slot<T>
        requires { number < length self.now }
        ensures { slice_get self.now number ≡ Some result }
    {
        *self.places.get(self.origin, number)
    }

    /// Sets the slot of a number.
    pub(crate) fn write(&mut self, number: usize, slot: Slot<T>)
        requires { number < length self.old }
        ensures { self.new ≡ slice_set self.old number slot }
    {
        self.places.put(self.origin, number, slot);
    }

    /// Lets the slot of a number lead to another. Its item stays.
    pub(crate) fn relink(&mut self, number: usize, link: usize)
        requires { number < length self.old }
        ensures { self.new ≡ slice_set self.old number (record (slot_at self.old number) { link = link }) }
    {
        let item = self.read(number).item;
        self.write(number, Slot { link, item });
    }
}
