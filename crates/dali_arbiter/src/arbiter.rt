ghost use Rattle.std.specs.Prelude.{◌≡◌, ℕ, ◌<◌, ◌≤◌, ◌↔◌, ◌⊎◌, [], length, Some, None, IsSome, IfSome, IfOk};
ghost use Rattle.std.specs.Prelude.{IfErr, OnErr, IsErrOf, IsTrue};
ghost use Rattle.std.specs.List.{AllByRecursion};
ghost use Rattle.dali_arbiter.specs.declared.request.Request.{Request};
ghost use Rattle.dali_ring.specs.declared.error.NewError.TheVariants.{BadCapacity};
ghost use Rattle.dali_arbiter.specs.Arbiter.{Arbiter, idle, total, next, request_of, offer_refusal, bus_offered};
ghost use Rattle.dali_arbiter.specs.Arbiter.{bus_sent, bus_destroyed, collision, bus_collided, bus_lapsed};
ghost use Rattle.dali_arbiter.specs.Arbiter.{bus_silenced, first_list, bus_taken, bus_freed, is_barred};

use crate::error::OfferError;
use crate::request::Request;
use crate::waiting;
use dali_frame::{Forward, Priority};
use dali_ring::{NewError, Ring};
use std::alloc::Global;
use std::marker::Model;

/// The requests that wait for the bus, oldest first in each of the five lists, and the owner of the bus.
///
/// Contracts see the five lists, the owner, and how many requests may wait.
#[derive(Drop)]
pub struct Arbiter {
    waiting: Ring<Request>,
    owner: Option<u8>,
}

impl Model for Arbiter {
    ghost use Rattle.dali_arbiter.specs.Arbiter.{Arbiter};

    ghost Value = { Arbiter };

    ghost use Rattle.dali_arbiter.specs.Held.{IsHeld};

    ghost view = { λ a. record { lists = a.waiting.lists; owner = a.owner; capacity = a.waiting.capacity } };

    ghost invariant = { λ a. IsHeld a.waiting a.owner };
}

impl Arbiter {
    /// An arbiter of a bus without owner, with room for `capacity` requests: 1 to 1024.
    ///
    /// `BadCapacity` comes before `NoMemory`.
    pub fn new(alloc: Global, capacity: usize) -> Result<Arbiter, NewError>
        ensures ok { IfOk result (λ a. a ≡ idle capacity) }
        ensures bad_capacity { IsErrOf result BadCapacity ↔ ((capacity ≡ 0) ⊎ (1024 < capacity)) }
    {
        Ok(Arbiter {
            waiting: Ring::new(alloc, capacity)?,
            owner: None,
        })
    }

    /// Puts a request last in the list of its priority.
    ///
    /// Priority 1 is for the owner of the bus alone. `NotOwner` comes before `QueueFull`.
    #[inline(always)]
    pub fn offer(
        &mut self,
        sender: u8,
        priority: Priority,
        frame: Forward,
    ) -> Result<(), OfferError>
        ensures ok { IfOk result (λ _. offer_refusal self.old (request_of sender priority frame) ≡ None) }
        ensures put { IfOk result (λ _. self.new ≡ bus_offered self.old (request_of sender priority frame)) }
        ensures refused { IfErr result (λ e. offer_refusal self.old (request_of sender priority frame) ≡ Some e) }
        ensures unchanged { OnErr result (self.new ≡ self.old) }
    {
        if self.is_barred(sender, priority) {
            return Err(OfferError::NotOwner);
        }
        let request = Request {
            sender,
            priority,
            frame,
        };
        match self.waiting.push(priority, request) {
            Ok(()) => Ok(()),
            Err(_) => Err(OfferError::QueueFull),
        }
    }

    /// The request that is next: of the owner of the bus its first at priority 1; if the bus has no owner, the first
    /// of the highest priority that waits.
    pub fn pick(&self) -> Option<Request>
        ensures next { result ≡ next self.now }
        ensures owned { (owner : ℕ) → self.now.owner ≡ Some owner → IfSome result (λ r. r.sender ≡ owner) }
    {
        match self.owner {
            Some(_) => self.waiting.front(Priority::LATER),
            None => waiting::first(&self.waiting),
        }
    }

    /// The next request was sent: it leaves. There must be one: `pick` showed it.
    ///
    /// With `more` frames of its transaction to come, its sender owns the bus from now on; else the bus has no owner,
    /// and the list of priority 1 is emptied.
    #[inline(always)]
    pub fn sent(&mut self, more: bool)
        requires { IsSome (next self.old) }
        ensures { self.new ≡ bus_sent self.old more }
    {
        let request = self.take();
        if more {
            self.owner = Some(request.sender);
        } else {
            self.free();
        }
    }

    /// The next request was destroyed on the bus: it leaves, the bus has no owner, and the list of priority 1 is
    /// emptied. There must be one: `pick` showed it.
    pub fn destroyed(&mut self)
        requires { IsSome (next self.old) }
        ensures { self.new ≡ bus_destroyed self.old }
    {
        self.take();
        self.free();
    }

    /// The next request collided: as `destroyed`; if the request behind it in its list has another sender, that
    /// one leaves too and is answered: its sender is to be told too. There must be a next request: `pick` showed it.
    pub fn collided(&mut self) -> Option<Request>
        requires { IsSome (next self.old) }
        ensures other { result ≡ collision self.old.lists }
        ensures bus { self.new ≡ bus_collided self.old }
    {
        let other = waiting::take_collision(&mut self.waiting);
        self.free();
        other
    }

    /// Ownership ends: the bus has no owner, and the list of priority 1 is emptied. Answers who owned it.
    pub fn lapse(&mut self) -> Option<u8>
        ensures owner { result ≡ self.old.owner }
        ensures bus { self.new ≡ bus_lapsed self.old }
    {
        let owner = self.owner;
        self.free();
        owner
    }

    /// A sender falls silent: all its requests leave, the others keep their order, and its ownership ends.
    ///
    /// If it owned the bus, the list of priority 1 is emptied.
    pub fn silence(&mut self, sender: u8)
        ensures { self.new ≡ bus_silenced self.old sender }
    {
        self.waiting.remove_of(sender);
        if self.owner == Some(sender) {
            self.free();
        }
    }

    /// Who owns the bus.
    ///
    /// The requests of priority 1 are the owner's; if the bus has no owner there are none.
    pub fn owner(&self) -> Option<u8>
        ensures value { result ≡ self.now.owner }
        ensures owned { AllByRecursion (λ r. self.now.owner ≡ Some r.sender) (first_list self.now) }
        ensures free { self.now.owner ≡ None → first_list self.now ≡ [] }
    {
        self.owner
    }

    /// How many requests wait, in the five lists together.
    pub fn len(&self) -> usize
        ensures count { result ≡ total self.now }
        ensures bound { total self.now ≤ self.now.capacity }
        ensures five { length self.now.lists ≡ 5 }
    {
        self.waiting.len()
    }

    /// The requests that wait: in the ring's lists, those of priority 1 first.
    pub fn lists(&self) -> &Ring<Request>
        ensures lists { result.now.lists ≡ self.now.lists }
        ensures capacity { result.now.capacity ≡ self.now.capacity }
    {
        &self.waiting
    }

    /// Whether no request waits.
    pub fn is_empty(&self) -> bool
        ensures { IsTrue result ↔ (total self.now ≡ 0) }
    {
        self.len() == 0
    }

    /// Whether as many requests wait as may.
    pub fn is_full(&self) -> bool
        ensures { IsTrue result ↔ (total self.now ≡ self.now.capacity) }
    {
        self.len() == self.capacity()
    }

    /// How many requests may wait: 1 to 1024.
    pub fn capacity(&self) -> usize
        ensures value { result ≡ self.now.capacity }
        ensures least { 1 ≤ self.now.capacity }
        ensures most { self.now.capacity ≤ 1024 }
    {
        self.waiting.capacity()
    }

    fn is_barred(&self, sender: u8, priority: Priority) -> bool
        ensures barred { result ≡ is_barred self.now.owner sender priority }
        ensures least { 1 ≤ priority }
        ensures most { priority ≤ 5 }
    {
        priority.number() == 1 && self.owner != Some(sender)
    }

    #[inline(always)]
    fn take(&mut self) -> Request
        requires { IsSome (next self.old) }
        ensures value { next self.old ≡ Some result }
        ensures bus { self.new ≡ bus_taken self.old }
        ensures owned { (owner : ℕ) → self.old.owner ≡ Some owner → result.sender ≡ owner }
    {
        waiting::take_first(&mut self.waiting)
    }

    fn free(&mut self)
        ensures { self.new ≡ bus_freed self.old }
    {
        waiting::empty_first(&mut self.waiting);
        self.owner = None;
    }
}
