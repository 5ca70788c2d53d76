ghost use Rattle.std.specs.Prelude.{◌≡◌, ◌<◌, ◌↔◌, ◌&&◌, IsTrue, IsOk, OnOk, OnErr};
ghost use Rattle.std.specs.Prelude.{MatchOption, IsSome, IfSome, []};
ghost use Rattle.dali_script.specs.Records.{Kept, Has, HasAddress, HasRandom};
ghost use Rattle.dali_script.specs.Records.{Fits, MayAdd, Shows, with_record};
ghost use Rattle.dali_script.specs.Table.{table_of};

use crate::assignments::Assignments;
use crate::block::Block;
use crate::pair::Pair;
use crate::reading::Records;
use crate::records::{AddError, Record};
use crate::table::Table;
use dali_frame::{Random24, Short};
use std::marker::Model;

/// The records of one controller: its block, and what it has reserved and enrolled, each in the order of the records.
///
/// Contracts see the block and two lists of pairs. In each list an address stands once, and a random address once.
#[derive(Drop)]
pub struct Kept {
    reserved: Assignments,
    /// The block, and the enrolments.
    table: Table,
}

impl Model for Kept {
    ghost use Rattle.dali_script.specs.Records.{Kept, IsKept};

    ghost Value = { Kept };

    ghost view = { λ k. record {
      block = k.table.block;
      reserved = k.reserved;
      enrolled = k.table.entries;
    } };

    ghost invariant = { λ k. IsKept (record {
      block = k.table.block;
      reserved = k.reserved;
      enrolled = k.table.entries;
    }) };
}

impl Kept {
    ghost use Rattle.dali_script.specs.Records.{without_records, IsKept, Fits, MayAdd, IsAddressTaken, IsRandomTaken};
    ghost use Rattle.dali_script.specs.Records.{IsNotReserved, address_of, with_record};

    /// No records, for a controller with this block.
    pub fn new(block: Block) -> Kept
        ensures { result ≡ without_records block }
    {
        Kept {
            reserved: Assignments::new(),
            table: Table::new(block),
        }
    }

    /// The records of these reservations and enrolments, each oldest first.
    ///
    /// None if no controller keeps them: if an address or a random address stands twice in one of the lists, a
    /// reserved address lies outside the block, or a random address is `FFFFFF`.
    pub fn of<'a>(block: Block, reserved: &'a [Pair], enrolled: &'a [Pair]) -> Option<Kept>
        ensures kept { IsSome result
            ↔ IsKept (record { block = block; reserved = reserved.now; enrolled = enrolled.now }) }
        ensures records { IfSome result
            (λ k. k ≡ record { block = block; reserved = reserved.now; enrolled = enrolled.now }) }
    {
        let records = Records::of(block, reserved, enrolled)?;
        Some(Kept {
            reserved: Assignments::of(reserved),
            table: Table::of(records.block(), enrolled),
        })
    }

    /// The same records once more.
    pub fn copy(&self) -> Kept
        ensures { result ≡ self.now }
    {
        Kept {
            reserved: self.reserved.copy(),
            table: self.table.copy(),
        }
    }

    /// The block.
    pub fn block(&self) -> Block
        ensures value { result ≡ self.now.block }
        ensures kept { IsKept self.now }
    {
        self.table.block()
    }

    /// The reservations, oldest first.
    pub fn reserved(&self) -> &[Pair]
        ensures value { result.now ≡ self.now.reserved }
        ensures kept { IsKept self.now }
    {
        self.reserved.pairs()
    }

    /// The enrolments, oldest first.
    pub fn enrolled(&self) -> &[Pair]
        ensures value { result.now ≡ self.now.enrolled }
        ensures kept { IsKept self.now }
    {
        self.table.entries()
    }

    /// The enrolments with the block, as a table.
    pub fn table(&self) -> &Table
        ensures value { result.now ≡ table_of self.now }
        ensures kept { IsKept self.now }
    {
        &self.table
    }

    /// The same records, to be read. Nothing is copied.
    pub fn view(&self) -> Records<'_>
        ensures value { result ≡ self.now }
        ensures kept { IsKept self.now }
    {
        Records::known(self.block(), self.reserved(), self.enrolled())
    }

    /// Whether a record fits here: an address that is reserved or released lies in the block, and the random address is
    /// below `FFFFFF`.
    pub fn fits(&self, added: &Record) -> bool
        ensures { IsTrue result ↔ Fits self.now.block added.now }
    {
        self.view().fits(added)
    }

    /// Whether the records show that this one was added to them: its pair is reserved or enrolled, or reserved no
    /// longer.
    pub fn shows(&self, added: &Record) -> bool
        ensures { IsTrue result ↔ Shows self.now added.now }
    {
        self.view().shows(added)
    }

    /// Adds a record as the last of its kind; a release takes its reservation away. It must fit, as `fits` tells: what
    /// comes from elsewhere is to be tested first.
    ///
    /// `AddressTaken` comes before `RandomTaken`; each speaks of records of the same kind alone, and `NotReserved` of a
    /// release.
    pub fn add(&mut self, added: Record) -> Result<(), AddError>
        requires { Fits self.old.block added }

        ensures success { IsOk result ↔ MayAdd self.old added }
        ensures address_taken { (result ≡ Err AddError.AddressTaken) ↔ IsAddressTaken self.old added }
        ensures random_taken { (result ≡ Err AddError.RandomTaken) ↔ IsRandomTaken self.old added }
        ensures not_reserved { (result ≡ Err AddError.NotReserved) ↔ IsNotReserved self.old added }

        ensures ok { OnOk result (self.new ≡ with_record self.old added) }
        ensures err { OnErr result (self.new ≡ self.old) }
        ensures short { address_of added < 64 }
    {
        match added {
            Record::Reserve(address, random) => self.reserved.insert(address, random),
            Record::Enrol(address, random) => self.table.insert(address, random),
            Record::Release(address, random) => self.reserved.take_out(address, random),
        }
    }

    /// Whether both have the same block and the same records in the same order.
    pub fn same(&self, other: &Kept) -> bool
        ensures { IsTrue result ↔ (self.now ≡ other.now) }
    {
        self.table.same(&other.table) && self.reserved.same(&other.reserved)
    }

    /// Whether these are the other records with one more, in the same order.
    pub fn is_with(&self, other: &Kept, added: &Record) -> bool
        ensures { IsTrue result ↔ (self.now ≡ with_record other.now added.now) }
    {
        let pair = Pair::of(added.address(), added.random());
        match added {
            Record::Reserve(..) => {
                self.table.same(&other.table) && self.reserved.is_with(&other.reserved, pair)
            }
            Record::Enrol(..) => {
                self.reserved.same(&other.reserved) && self.table.is_with(&other.table, pair)
            }
            Record::Release(..) => {
                self.table.same(&other.table) && self.reserved.is_without(&other.reserved, pair)
            }
        }
    }

    /// The random address of the gear that was enrolled with a short address.
    pub fn enrolled_at(&self, address: Short) -> Option<Random24>
        ensures value { MatchOption result
            (HasAddress self.now.enrolled address → ⊥)
            (λ random. Has self.now.enrolled (address, random)) }
        ensures kept { IsKept self.now }
    {
        self.view().enrolled_at(address)
    }

    /// The short address with which the gear of a random address was enrolled.
    pub fn enrolled_for(&self, random: Random24) -> Option<Short>
        ensures value { MatchOption result
            (HasRandom self.now.enrolled random → ⊥)
            (λ address. Has self.now.enrolled (address, random)) }
        ensures kept { IsKept self.now }
    {
        self.view().enrolled_for(random)
    }
}
