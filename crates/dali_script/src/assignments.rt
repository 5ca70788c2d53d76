ghost use Rattle.std.specs.Prelude.{◌≡◌, ◌↔◌, ◌<◌, [], ◌∷◌, ◌++◌, IsTrue, IsOk, IfErr, OnOk, OnErr, MatchOption};
ghost use Rattle.dali_script.specs.Records.{Has, HasAddress, HasRandom, IsFresh, without_pair};

use crate::pair::Pair;
use crate::pairs::{
    Pairs, are_both, are_same, are_with, at_address, at_random, has_address, has_random, place_of,
};
use crate::records::AddError;
use dali_frame::{Random24, Short};
use std::marker::Model;

/// Short addresses, each with the random address that it is for, in the order in which they were added.
///
/// Contracts see the list of pairs. An address stands once, and a random address once. They lie in the value itself,
/// which has room for all that there can be: no call takes memory.
#[derive(Drop)]
pub struct Assignments {
    pairs: Pairs,
}

impl Model for Assignments {
    ghost use Rattle.std.specs.Prelude.{List, ◌≡◌, ◌≤◌, length};
    ghost use Rattle.dali_script.specs.Records.{Assignment, IsMap};
    ghost use Rattle.dali_script.specs.Pairs.{pairs_in};

    ghost Value = { List Assignment };

    ghost view = { λ a. pairs_in a.pairs };

    ghost invariant = { λ a. (a.pairs.count ≤ 64) × IsMap (pairs_in a.pairs)
        × (length (pairs_in a.pairs) ≡ a.pairs.count) };
}

impl Assignments {
    ghost use Rattle.dali_script.specs.Records.{IsMap};

    /// No pairs.
    pub fn new() -> Assignments
        ensures { result ≡ [] }
    {
        Assignments {
            pairs: Pairs::new(),
        }
    }

    /// These pairs, oldest first.
    pub(crate) fn of(pairs: &[Pair]) -> Assignments
        requires { IsMap pairs.now }
        ensures { result ≡ pairs.now }
    {
        Assignments {
            pairs: Pairs::of(pairs),
        }
    }

    /// The same pairs once more.
    pub fn copy(&self) -> Assignments
        ensures { result ≡ self.now }
    {
        Assignments { pairs: self.pairs }
    }

    /// The pairs, oldest first.
    pub fn pairs(&self) -> &[Pair]
        ensures value { result.now ≡ self.now }
        ensures map { IsMap self.now }
    {
        self.pairs.as_slice()
    }

    /// The random address of the pair with a short address.
    pub fn by_address(&self, address: Short) -> Option<Random24>
        ensures found { MatchOption result
            (HasAddress self.now address → ⊥)
            (λ random. Has self.now (address, random)) }
        ensures short { address < 64 }
    {
        at_address(self.pairs(), address)
    }

    /// The short address of the pair with a random address.
    pub fn by_random(&self, random: Random24) -> Option<Short>
        ensures { MatchOption result
            (HasRandom self.now random → ⊥)
            (λ address. Has self.now (address, random)) }
    {
        at_random(self.pairs(), random)
    }

    /// Whether a pair has the short address.
    pub fn has_address(&self, address: Short) -> bool
        ensures value { IsTrue result ↔ HasAddress self.now address }
        ensures short { address < 64 }
    {
        has_address(self.pairs(), address)
    }

    /// Whether a pair has the random address.
    pub fn has_random(&self, random: Random24) -> bool
        ensures { IsTrue result ↔ HasRandom self.now random }
    {
        has_random(self.pairs(), random)
    }

    /// Adds a pair as the last one.
    ///
    /// `AddressTaken` comes before `RandomTaken`.
    pub fn insert(&mut self, address: Short, random: Random24) -> Result<(), AddError>
        ensures success { IsOk result ↔ IsFresh self.old (address, random) }
        ensures address_taken { (result ≡ Err AddError.AddressTaken) ↔ HasAddress self.old address }
        ensures random_taken { (result ≡ Err AddError.RandomTaken)
            ↔ ((HasAddress self.old address → ⊥) × HasRandom self.old random) }
        ensures reserved { result ≡ Err AddError.NotReserved → ⊥ }
        ensures ok { OnOk result (self.new ≡ self.old ++ (address, random) ∷ []) }
        ensures err { OnErr result (self.new ≡ self.old) }
        ensures short { address < 64 }
        ensures map { IsMap self.new }
    {
        if self.has_address(address) {
            return Err(AddError::AddressTaken);
        }
        if self.has_random(random) {
            return Err(AddError::RandomTaken);
        }
        // A further address is one of 64, so there is room for it.
        self.pairs.push(Pair::of(address, random));
        Ok(())
    }

    /// Takes a pair away; the others stay in their order.
    ///
    /// `NotReserved` if the pair is not there.
    pub fn take_out(&mut self, address: Short, random: Random24) -> Result<(), AddError>
        ensures success { IsOk result ↔ Has self.old (address, random) }
        ensures refusal { IfErr result (λ e. e ≡ AddError.NotReserved) }
        ensures ok { OnOk result (self.new ≡ without_pair (address, random) self.old) }
        ensures err { OnErr result (self.new ≡ self.old) }
        ensures short { address < 64 }
        ensures map { IsMap self.new }
    {
        match place_of(self.pairs(), Pair::of(address, random)) {
            Some(place) => {
                self.pairs.remove(place);
                Ok(())
            }
            None => Err(AddError::NotReserved),
        }
    }

    /// Whether both are the same pairs in the same order.
    pub fn same(&self, other: &Assignments) -> bool
        ensures { IsTrue result ↔ (self.now ≡ other.now) }
    {
        are_same(self.pairs(), other.pairs())
    }

    /// Whether these are the other ones with this pair as the last one.
    pub fn is_with(&self, other: &Assignments, last: Pair) -> bool
        ensures { IsTrue result ↔ (self.now ≡ other.now ++ last ∷ []) }
    {
        are_with(self.pairs(), other.pairs(), last)
    }

    /// Whether these are the other ones without this pair.
    pub fn is_without(&self, other: &Assignments, gone: Pair) -> bool
        ensures { IsTrue result ↔ (self.now ≡ without_pair gone other.now) }
    {
        let pairs = other.pairs();
        match place_of(pairs, gone) {
            Some(place) => {
                let (front, _) = pairs.split_at(place);
                let (_, rest) = pairs.split_at(place + 1);
                are_both(self.pairs(), front, rest)
            }
            None => self.same(other),
        }
    }
}
