ghost use Rattle.std.specs.Prelude.{◌≡◌, ◌+◌, ◌-◌, ◌<◌, ◌≤◌, ◌↔◌, ◌⊎◌, [], ◌∷◌, ◌++◌, length, drop, slice_get};
ghost use Rattle.std.specs.Prelude.{IfOk, IsErrOf, OnOk, IsErr, IfErr};
ghost use Rattle.dali_ring.specs.declared.error.NewError.TheVariants.{BadCapacity};
ghost use Rattle.dali_ring.specs.Queues.{Queues, no_items, total, list_of, with_list, best, all_without};

use crate::error::NewError;
use crate::links::Links;
use crate::sent::Sent;
use dali_frame::Priority;
use std::alloc::Global;
use std::marker::Model;

/// Items that wait, oldest first in the list of each priority.
///
/// Contracts see the five lists, and how many items may wait. Only `new` takes memory; `push`, `front`, `pop` and
/// `best` take the same time however many wait.
#[derive(Drop)]
pub struct Ring<T> {
    links: Links<T>,
    len: usize,
}

impl<T> Model for Ring<T> {
    ghost use Rattle.std.specs.Prelude.{◌≡◌, length, sum_by};
    ghost use Rattle.dali_ring.specs.Queues.{Queues};
    ghost use Rattle.dali_ring.specs.Linked.{IsLinked, waiting};

    ghost Value = { Queues T };

    ghost view = { λ r. record { lists = waiting r.links.slots r.links.capacity; capacity = r.links.capacity } };

    ghost invariant = { λ r. IsLinked r.links.slots r.links.capacity r.links.tails
        × (r.len ≡ sum_by length (waiting r.links.slots r.links.capacity)) };
}

impl<T: Copy> Ring<T> {
    /// A ring in which nothing waits, with room for `capacity` items: 1 to 1024.
    ///
    /// `BadCapacity` comes before `NoMemory`.
    pub fn new(alloc: Global, capacity: usize) -> Result<Ring<T>, NewError>
        ensures ok { IfOk result (λ r. r ≡ no_items capacity) }
        ensures bad_capacity { IsErrOf result BadCapacity ↔ ((capacity ≡ 0) ⊎ (1024 < capacity)) }
    {
        if capacity == 0 || 1024 < capacity {
            return Err(NewError::BadCapacity);
        }
        let links = Links::new(alloc, capacity)?;
        Ok(Ring { links, len: 0 })
    }

    /// Puts an item last in the list of its priority. If as many wait as may, it is handed back.
    pub fn push(&mut self, priority: Priority, item: T) -> Result<(), T>
        ensures pushed { OnOk result (self.new ≡ with_list self.old priority (list_of self.old priority ++ item ∷ [])) }
        ensures full { IsErr result ↔ (total self.old ≡ self.old.capacity) }
        ensures back { IfErr result (λ x. (x ≡ item) × (self.new ≡ self.old)) }
    {
        if self.len == self.links.capacity {
            return Err(item);
        }
        self.links.append(rank(priority), item);
        self.len += 1;
        Ok(())
    }

    /// The oldest item of a priority.
    pub fn front(&self, priority: Priority) -> Option<T>
        ensures { result ≡ slice_get (list_of self.now priority) 0 }
    {
        self.links.first(rank(priority))
    }

    /// Takes the oldest item of a priority out.
    pub fn pop(&mut self, priority: Priority) -> Option<T>
        ensures first { result ≡ slice_get (list_of self.old priority) 0 }
        ensures rest { self.new ≡ with_list self.old priority (drop 1 (list_of self.old priority)) }
    {
        let list = rank(priority);
        let begin = self.links.capacity + list;
        let item = self.links.first(list);
        if item.is_some() {
            self.links.detach(list, begin);
            self.len -= 1;
        }
        item
    }

    /// The highest priority, 1 before 5, of which an item waits.
    pub fn best(&self) -> Option<Priority>
        ensures { result ≡ best self.now }
    {
        for number in 1..6 {
            if self.links.first(usize::from(number) - 1).is_some() {
                return Priority::of(number);
            }
        }
        None
    }

    /// How many items wait, in the five lists together.
    pub fn len(&self) -> usize
        ensures count { result ≡ total self.now }
        ensures bound { total self.now ≤ self.now.capacity }
        ensures five { length self.now.lists ≡ 5 }
    {
        self.len
    }

    /// How many items may wait: 1 to 1024.
    pub fn capacity(&self) -> usize
        ensures value { result ≡ self.now.capacity }
        ensures least { 1 ≤ self.now.capacity }
        ensures most { self.now.capacity ≤ 1024 }
    {
        self.links.capacity
    }
}

impl<T: Copy + Sent> Ring<T> {
    /// Takes all items of a sender out, and answers how many they were. The others keep their order.
    ///
    /// It looks at each item that waits, once.
    pub fn remove_of(&mut self, sender: u8) -> usize
        ensures rest { self.new ≡ all_without T.from sender self.old }
        ensures count { result + total self.new ≡ total self.old }
    {
        let first = self.links.sweep(0, sender);
        let second = self.links.sweep(1, sender);
        let third = self.links.sweep(2, sender);
        let fourth = self.links.sweep(3, sender);
        let fifth = self.links.sweep(4, sender);
        let gone = first + second + third + fourth + fifth;
        self.len -= gone;
        gone
    }
}

/// The number of a priority's list, from 0 on.
fn rank(priority: Priority) -> usize
    ensures value { result ≡ priority - 1 }
    ensures range { result < 5 }
{
    usize::from(priority.number()) - 1
}
