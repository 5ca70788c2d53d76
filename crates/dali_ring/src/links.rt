ghost use Rattle.std.specs.Prelude.{◌≡◌, ◌+◌, ◌<◌, ◌≤◌, List, [], ◌∷◌, ◌++◌, Option, slice_set, slice_index_or};
ghost use Rattle.std.specs.Prelude.{length, slice_get, sum_by, IfOk, replicate};
ghost use Rattle.dali_ring.specs.Linked.{Holds, lines, IsBefore, Leads, link_at, item_at, IsLinked, waiting, IsAt};
ghost use Rattle.dali_ring.specs.Queues.{without};

use crate::sent::Sent;
use crate::slots::{Slot, Slots};
use std::alloc::{AllocError, Global};

/// Six lists in slots that are linked by their numbers, of which the last is that of the free slots.
///
/// List `p` begins behind slot `capacity + p`, and its last slot leads back there. So each link that is below
/// `capacity` leads to an item, and a link that is not ends its list.
#[derive(Drop)]
pub(crate) struct Links<T> {
    pub(crate) slots: Slots<T>,
    /// For each list its last slot, or where it begins, if it is empty.
    pub(crate) tails: [usize; 6],
    pub(crate) capacity: usize,
}

impl<T: Copy> Links<T> {
    /// Lists in which nothing waits. All slots are free.
    pub(crate) fn new(alloc: Global, capacity: usize) -> Result<Links<T>, AllocError>
        requires least { 1 ≤ capacity }
        requires most { capacity ≤ 1024 }
        ensures capacity { IfOk result (λ l. l.capacity ≡ capacity) }
        ensures linked { IfOk result (λ l. IsLinked l.slots l.capacity l.tails) }
        ensures waiting { IfOk result (λ l. waiting l.slots l.capacity ≡ replicate 5 []) }
    {
        let last = capacity - 1;
        let mut slots = Slots::make(alloc, capacity + 6)?;
        for list in 0..5 {
            let begin = capacity + list;
            slots.write(
                begin,
                Slot {
                    link: begin,
                    item: None,
                },
            );
        }
        slots.write(
            last,
            Slot {
                link: capacity + 5,
                item: None,
            },
        );
        slots.write(
            capacity + 5,
            Slot {
                link: 0,
                item: None,
            },
        );
        Ok(Links {
            slots,
            tails: [
                capacity,
                capacity + 1,
                capacity + 2,
                capacity + 3,
                capacity + 4,
                last,
            ],
            capacity,
        })
    }

    /// Takes the slot behind `before` out of list `from`, and puts it last in list `to`, with this item.
    pub(crate) fn relocate(&mut self, from: usize, before: usize, to: usize, item: Option<T>)
        requires held { Holds self.old.slots self.old.capacity self.old.tails (lines self.old.slots self.old.capacity) }
        requires small { self.old.capacity ≤ 1024 }
        requires from { from < 6 }
        requires to { to < 6 }
        requires other { from ≡ to → ⊥ }
        requires place { (us : List (Option T)) × (x : Option T) × (rest : List (Option T))
            × IsBefore self.old.slots self.old.capacity from before us x rest }
        ensures capacity { self.new.capacity ≡ self.old.capacity }
        ensures held { (us : List (Option T)) (x : Option T) (rest : List (Option T))
            → IsBefore self.old.slots self.old.capacity from before us x rest
            → Holds self.new.slots self.new.capacity self.new.tails
            (slice_set (slice_set (lines self.old.slots self.old.capacity) from (us ++ rest)) to
            (slice_index_or (lines self.old.slots self.old.capacity) to [] ++ item ∷ [])) }
        ensures way { (us : List (Option T)) (x : Option T) (rest : List (Option T))
            → IsBefore self.old.slots self.old.capacity from before us x rest
            → Leads (link_at self.new.slots) (item_at self.new.slots) self.new.capacity before
            (self.new.capacity + from) us }
    {
        let last = self.tails[to];
        let at = self.slots.read(before).link;
        let next = self.slots.read(at).link;
        self.slots.relink(before, next);
        self.slots.relink(last, at);
        self.slots.write(
            at,
            Slot {
                link: self.capacity + to,
                item,
            },
        );
        let left = if next < self.capacity {
            self.tails[from]
        } else {
            before
        };
        self.tails[from] = left;
        self.tails[to] = at;
    }

    /// Puts an item last in a list. One slot must be free.
    pub(crate) fn append(&mut self, list: usize, item: T)
        requires linked { IsLinked self.old.slots self.old.capacity self.old.tails }
        requires list { list < 5 }
        requires room { sum_by length (waiting self.old.slots self.old.capacity) < self.old.capacity }
        ensures capacity { self.new.capacity ≡ self.old.capacity }
        ensures linked { IsLinked self.new.slots self.new.capacity self.new.tails }
        ensures waiting { waiting self.new.slots self.new.capacity
            ≡ slice_set (waiting self.old.slots self.old.capacity) list
            (slice_index_or (waiting self.old.slots self.old.capacity) list [] ++ item ∷ []) }
    {
        self.relocate(5, self.capacity + 5, list, Some(item));
    }

    /// Takes the item behind `before` out of its list.
    pub(crate) fn detach(&mut self, list: usize, before: usize)
        requires linked { IsLinked self.old.slots self.old.capacity self.old.tails }
        requires list { list < 5 }
        requires place { (us : List T) × (x : T) × (rest : List T)
            × IsAt self.old.slots self.old.capacity list before us (x ∷ rest) }
        ensures capacity { self.new.capacity ≡ self.old.capacity }
        ensures linked { IsLinked self.new.slots self.new.capacity self.new.tails }
        ensures waiting { (us : List T) (x : T) (rest : List T)
            → IsAt self.old.slots self.old.capacity list before us (x ∷ rest)
            → waiting self.new.slots self.new.capacity
            ≡ slice_set (waiting self.old.slots self.old.capacity) list (us ++ rest) }
        ensures place { (us : List T) (x : T) (rest : List T)
            → IsAt self.old.slots self.old.capacity list before us (x ∷ rest)
            → IsAt self.new.slots self.new.capacity list before us rest }
    {
        self.relocate(list, before, 5, None);
    }

    /// The item behind `before`, if its list goes on there.
    pub(crate) fn behind(&self, list: usize, before: usize) -> Option<T>
        requires linked { IsLinked self.now.slots self.now.capacity self.now.tails }
        requires list { list < 5 }
        requires place { (us : List T) × (rest : List T)
            × IsAt self.now.slots self.now.capacity list before us rest }
        ensures { (us rest : List T) → IsAt self.now.slots self.now.capacity list before us rest
            → result ≡ slice_get rest 0 }
    {
        let at = self.slots.read(before).link;
        if at < self.capacity {
            self.slots.read(at).item
        } else {
            None
        }
    }

    /// The first item of a list.
    pub(crate) fn first(&self, list: usize) -> Option<T>
        requires linked { IsLinked self.now.slots self.now.capacity self.now.tails }
        requires list { list < 5 }
        ensures { result ≡ slice_get (slice_index_or (waiting self.now.slots self.now.capacity) list []) 0 }
    {
        self.behind(list, self.capacity + list)
    }
}

impl<T: Copy + Sent> Links<T> {
    /// Takes the items of a sender out of a list, and answers how many they were. The others keep their order.
    pub(crate) fn sweep(&mut self, list: usize, sender: u8) -> usize
        requires linked { IsLinked self.old.slots self.old.capacity self.old.tails }
        requires list { list < 5 }
        ensures capacity { self.new.capacity ≡ self.old.capacity }
        ensures linked { IsLinked self.new.slots self.new.capacity self.new.tails }
        ensures waiting { waiting self.new.slots self.new.capacity
            ≡ slice_set (waiting self.old.slots self.old.capacity) list
            (without T.from sender (slice_index_or (waiting self.old.slots self.old.capacity) list [])) }
        ensures count { result + sum_by length (waiting self.new.slots self.new.capacity)
            ≡ sum_by length (waiting self.old.slots self.old.capacity) }
    {
        let mut before = self.capacity + list;
        let mut gone = 0;
        while let Some(item) = self.behind(list, before) {
            if item.sender() == sender {
                self.detach(list, before);
                gone += 1;
            } else {
                before = self.slots.read(before).link;
            }
        }
        gone
    }
}
