//! The records of a controller to be read, wherever they lie.

ghost use Rattle.std.specs.Prelude.{◌≡◌, ◌↔◌, Some, None, IsTrue, IsSome, IfSome, MatchOption};
ghost use Rattle.dali_script.specs.Records.{Kept, Has, HasAddress, HasRandom, IsLeastFree, IsFull, IsKept};
ghost use Rattle.dali_script.specs.Records.{Fits, MayAdd, Marks, MayBeUnmatched, Shows};

use crate::block::Block;
use crate::checks::{are_enrolled, are_within};
use crate::pair::Pair;
use crate::pairs::{at_address, at_random, has_pair, marks, maybe_unmatched, not_there, taken};
use crate::records::{AddError, Record};
use dali_frame::{Random24, Short};
use std::marker::Model;

/// The records of one controller, lent to be read: those of a `Kept`, or of memory that the caller owns.
///
/// Contracts see what they see of a `Kept`. Nothing is copied.
#[derive(Drop)]
pub struct Records<'a> {
    block: Block,
    reserved: &'a [Pair],
    enrolled: &'a [Pair],
}

impl<'a> Model for Records<'a> {
    ghost use Rattle.dali_script.specs.Records.{Kept, IsKept};

    ghost Value = { Kept };

    ghost view = { λ r. record { block = r.block; reserved = r.reserved.now; enrolled = r.enrolled.now } };

    ghost invariant = { λ r. IsKept (record {
      block = r.block;
      reserved = r.reserved.now;
      enrolled = r.enrolled.now;
    }) };
}

impl<'a> Records<'a> {
    ghost use Rattle.dali_script.specs.Records.{IsAddressTaken, IsRandomTaken, IsNotReserved};
    ghost use Rattle.dali_script.specs.Stages.{may_give, may_give_some, in_block};
    ghost use Rattle.dali_script.specs.declared.records.AddError.TheVariants as refusal;

    /// The records of these reservations and enrolments, each oldest first.
    ///
    /// None if no controller keeps them: if an address or a random address stands twice in one of the lists, a
    /// short address is above 63, a reserved one lies outside the block, or a random address is `FFFFFF`. It goes over
    /// each list once, and over the pairs before one whose random address has a last byte that was there before.
    pub fn of(block: Block, reserved: &'a [Pair], enrolled: &'a [Pair]) -> Option<Records<'a>>
        ensures kept { IsSome result
            ↔ IsKept (record { block = block; reserved = reserved.now; enrolled = enrolled.now }) }
        ensures records { IfSome result
            (λ r. r ≡ record { block = block; reserved = reserved.now; enrolled = enrolled.now }) }
    {
        let own = block;
        if !are_within(block, reserved) || !are_enrolled(reserved) || !are_enrolled(enrolled) {
            return None;
        }
        Some(Records::known(own, reserved, enrolled))
    }

    /// The same records, if it is known that a controller keeps them.
    pub fn known(block: Block, reserved: &'a [Pair], enrolled: &'a [Pair]) -> Records<'a>
        requires { IsKept (record { block = block; reserved = reserved.now; enrolled = enrolled.now }) }
        ensures { result ≡ record { block = block; reserved = reserved.now; enrolled = enrolled.now } }
    {
        Records {
            block,
            reserved,
            enrolled,
        }
    }

    /// The block.
    pub fn block(&self) -> Block
        ensures value { result ≡ self.now.block }
        ensures kept { IsKept self.now }
    {
        self.block
    }

    /// Whether a record fits here: an address that is reserved or released lies in the block, and the random address is
    /// below `FFFFFF`.
    pub fn fits(&self, added: &Record) -> bool
        ensures { IsTrue result ↔ Fits self.now.block added.now }
    {
        let in_place = match *added {
            Record::Reserve(address, _) | Record::Release(address, _) => self.has_in_block(address),
            Record::Enrol(..) => true,
        };
        in_place && added.random() < Random24::MASK
    }

    fn has_in_block(&self, address: Short) -> bool
        ensures { result ≡ in_block self.now.block address }
    {
        self.block.first <= address && address <= self.block.last
    }

    /// Why a record may not be added; None if it may.
    ///
    /// `AddressTaken` comes before `RandomTaken`; each speaks of records of the same kind alone, and `NotReserved` of a
    /// release.
    pub fn refusal(&self, added: &Record) -> Option<AddError>
        ensures may { (result ≡ None) ↔ MayAdd self.now added.now }
        ensures address_taken { (result ≡ Some refusal.AddressTaken) ↔ IsAddressTaken self.now added.now }
        ensures random_taken { (result ≡ Some refusal.RandomTaken) ↔ IsRandomTaken self.now added.now }
        ensures not_reserved { (result ≡ Some refusal.NotReserved) ↔ IsNotReserved self.now added.now }
    {
        match *added {
            Record::Reserve(address, random) => taken(self.reserved, address, random),
            Record::Enrol(address, random) => taken(self.enrolled, address, random),
            Record::Release(address, random) => not_there(self.reserved, address, random),
        }
    }

    /// Whether the records show that this one was added to them: its pair is reserved or enrolled, or reserved no
    /// longer.
    pub fn shows(&self, added: &Record) -> bool
        ensures { IsTrue result ↔ Shows self.now added.now }
    {
        match *added {
            Record::Reserve(address, random) => has_pair(self.reserved, address, random),
            Record::Enrol(address, random) => has_pair(self.enrolled, address, random),
            Record::Release(address, random) => !has_pair(self.reserved, address, random),
        }
    }

    /// The random address for which a short address is reserved.
    pub fn reserved_at(&self, address: Short) -> Option<Random24>
        ensures value { MatchOption result
            (HasAddress self.now.reserved address → ⊥)
            (λ random. Has self.now.reserved (address, random)) }
        ensures kept { IsKept self.now }
    {
        at_address(self.reserved, address)
    }

    /// The short address that is reserved for a random address.
    pub fn reserved_for(&self, random: Random24) -> Option<Short>
        ensures value { MatchOption result
            (HasRandom self.now.reserved random → ⊥)
            (λ address. Has self.now.reserved (address, random)) }
        ensures kept { IsKept self.now }
    {
        at_random(self.reserved, random)
    }

    /// The random address of the gear that was enrolled with a short address.
    pub fn enrolled_at(&self, address: Short) -> Option<Random24>
        ensures value { MatchOption result
            (HasAddress self.now.enrolled address → ⊥)
            (λ random. Has self.now.enrolled (address, random)) }
        ensures kept { IsKept self.now }
    {
        at_address(self.enrolled, address)
    }

    /// The short address with which the gear of a random address was enrolled.
    pub fn enrolled_for(&self, random: Random24) -> Option<Short>
        ensures value { MatchOption result
            (HasRandom self.now.enrolled random → ⊥)
            (λ address. Has self.now.enrolled (address, random)) }
        ensures kept { IsKept self.now }
    {
        at_random(self.enrolled, random)
    }

    /// For each of the 64 short addresses, whether it is reserved. It goes over the reservations once.
    pub fn reserved_marks(&self) -> [bool; 64]
        ensures { Marks self.now.reserved result }
    {
        marks(self.reserved)
    }

    /// For each of the 64 short addresses, whether gear was enrolled with it. It goes over the enrolments once.
    pub fn enrolled_marks(&self) -> [bool; 64]
        ensures { Marks self.now.enrolled result }
    {
        marks(self.enrolled)
    }

    /// The least short address of the block that no reservation has.
    pub fn first_free(&self) -> Option<Short>
        ensures { MatchOption result
            (IsFull self.now.block self.now.reserved)
            (IsLeastFree self.now.block self.now.reserved) }
    {
        let taken = marks(self.reserved);
        for number in self.block.first.number()..self.block.last.number() + 1 {
            if !taken[number as usize] {
                return Short::of(number);
            }
        }
        None
    }

    /// For each of the 64 short addresses, whether the gear that it is reserved for may be one that is not enrolled.
    ///
    /// If it is not marked, there is no such gear. It may be marked when there is none, if the gear were enrolled
    /// in another order than they were reserved for. It goes over both lists once.
    pub fn maybe_unfinished(&self) -> [bool; 64]
        ensures { MayBeUnmatched self.now.reserved self.now.enrolled result }
    {
        maybe_unmatched(self.reserved, self.enrolled)
    }

    /// Whether an address is reserved for a random address.
    pub(crate) fn may_give(&self, random: Random24, address: Short) -> bool
        ensures { result ≡ may_give self.now.block self.now.reserved random address }
    {
        match self.reserved_for(random) {
            Some(reserved) => reserved == address,
            None => false,
        }
    }

    /// Whether some address is reserved for a random address.
    pub(crate) fn may_give_some(&self, random: Random24) -> bool
        ensures { result ≡ may_give_some self.now.block self.now.reserved random }
    {
        self.reserved_for(random).is_some()
    }
}
