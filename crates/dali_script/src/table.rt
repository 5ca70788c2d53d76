ghost use Rattle.std.specs.Prelude.{◌≡◌, ◌<◌, ◌↔◌, [], ◌∷◌, ◌++◌, Err, IsTrue};
ghost use Rattle.std.specs.Prelude.{IsOk, IfOk, IfErr, OnOk, OnErr, MatchOption};
ghost use Rattle.dali_script.specs.Records.{Has, HasAddress, HasRandom, InBlock, IsFresh, IsMap};
ghost use Rattle.dali_script.specs.Refusals.{number_of_table};
ghost use Rattle.dali_script.specs.declared.table.TableError.TheVariants.{AddressTaken, RandomTaken, NoMemory};

use crate::assignments::Assignments;
use crate::block::Block;
use crate::enrolled::Enrolled;
use crate::pair::Pair;
use crate::records::AddError;
use dali_frame::{Random24, Short};
use std::alloc::Global;
use std::marker::Model;
use thiserror::Error;

/// Why a table takes no entry, or hands none on. The numbers never change.
#[derive(Clone, Copy, Debug, PartialEq, Eq, Error)]
pub enum TableError {
    /// 1: an entry has the short address.
    #[error("the short address has an entry")]
    AddressTaken,
    /// 2: an entry has the random address.
    #[error("the random address has an entry")]
    RandomTaken,
    /// 3: memory ran out.
    #[error("out of memory")]
    NoMemory,
}

impl TableError {
    /// The refusal's number.
    pub fn number(self) -> u8
        ensures { result ≡ number_of_table self }
    {
        match self {
            TableError::AddressTaken => 1,
            TableError::RandomTaken => 2,
            TableError::NoMemory => 3,
        }
    }
}

/// The gear that a controller has enrolled, and the block of short addresses that it gives.
///
/// Contracts see the block, and the entries as a list of pairs, oldest first. An address stands once, and a
/// random address once.
#[derive(Drop)]
pub struct Table {
    block: Block,
    entries: Assignments,
}

impl Model for Table {
    ghost use Rattle.dali_script.specs.Table.{Table};

    ghost Value = { Table };

    ghost view = { λ t. record { block = t.block; entries = t.entries } };
}

impl Table {
    ghost use Rattle.dali_script.specs.Table.{at_first, with_entry};

    /// A table with no entries.
    pub fn new(block: Block) -> Table
        ensures { result ≡ at_first block }
    {
        Table {
            block,
            entries: Assignments::new(),
        }
    }

    /// The table with these entries, oldest first.
    pub(crate) fn of(block: Block, entries: &[Pair]) -> Table
        requires { IsMap entries.now }
        ensures { result ≡ record { block = block; entries = entries.now } }
    {
        Table {
            block,
            entries: Assignments::of(entries),
        }
    }

    /// The same table once more.
    pub(crate) fn copy(&self) -> Table
        ensures { result ≡ self.now }
    {
        Table {
            block: self.block,
            entries: self.entries.copy(),
        }
    }

    /// Whether both have the same block and the same entries in the same order.
    pub(crate) fn same(&self, other: &Table) -> bool
        ensures { IsTrue result ↔ (self.now ≡ other.now) }
    {
        self.block == other.block && self.entries.same(&other.entries)
    }

    /// Whether this is the other table with one entry more, in the same order.
    pub(crate) fn is_with(&self, other: &Table, last: Pair) -> bool
        ensures { IsTrue result ↔ (self.now ≡ with_entry other.now last.0 last.1) }
    {
        self.block == other.block && self.entries.is_with(&other.entries, last)
    }

    /// The block of short addresses that the controller gives.
    pub fn block(&self) -> Block
        ensures { result ≡ self.now.block }
    {
        self.block
    }

    /// The entries, oldest first.
    pub fn entries(&self) -> &[Pair]
        ensures value { result.now ≡ self.now.entries }
        ensures once { IsMap self.now.entries }
    {
        self.entries.pairs()
    }

    /// Adds an entry as the last one.
    ///
    /// `AddressTaken` comes before `RandomTaken`.
    pub fn enrol(&mut self, address: Short, random: Random24) -> Result<(), TableError>
        ensures success { IsOk result
            ↔ ((HasAddress self.old.entries address → ⊥) × (HasRandom self.old.entries random → ⊥)) }
        ensures address_taken { (result ≡ Err AddressTaken) ↔ HasAddress self.old.entries address }
        ensures random_taken { (result ≡ Err RandomTaken)
            ↔ ((HasAddress self.old.entries address → ⊥) × HasRandom self.old.entries random) }
        ensures ok { OnOk result (self.new ≡ with_entry self.old address random) }
        ensures err { OnErr result (self.new ≡ self.old) }
    {
        match self.insert(address, random) {
            Ok(()) => Ok(()),
            Err(AddError::AddressTaken) => Err(TableError::AddressTaken),
            Err(AddError::RandomTaken) => Err(TableError::RandomTaken),
            // Nothing is released here.
            Err(AddError::NotReserved) => unreachable!(),
        }
    }

    /// The same as `enrol`, with the refusals of records.
    pub(crate) fn insert(&mut self, address: Short, random: Random24) -> Result<(), AddError>
        ensures success { IsOk result ↔ IsFresh self.old.entries (address, random) }
        ensures address_taken { (result ≡ Err AddError.AddressTaken) ↔ HasAddress self.old.entries address }
        ensures random_taken { (result ≡ Err AddError.RandomTaken)
            ↔ ((HasAddress self.old.entries address → ⊥) × HasRandom self.old.entries random) }
        ensures reserved { result ≡ Err AddError.NotReserved → ⊥ }
        ensures ok { OnOk result (self.new ≡ with_entry self.old address random) }
        ensures err { OnErr result (self.new ≡ self.old) }
        ensures added { OnOk result (self.new.entries ≡ self.old.entries ++ (address, random) ∷ []) }
        ensures unchanged { OnErr result (self.new.entries ≡ self.old.entries) }
        ensures block { self.new.block ≡ self.old.block }
        ensures short { address < 64 }
        ensures map { IsMap self.new.entries }
    {
        self.entries.insert(address, random)
    }

    /// The random address of the gear that was enrolled with a short address.
    pub fn by_address(&self, address: Short) -> Option<Random24>
        ensures { MatchOption result
            (HasAddress self.now.entries address → ⊥)
            (λ random. Has self.now.entries (address, random)) }
    {
        self.entries.by_address(address)
    }

    /// The short address with which the gear of a random address was enrolled.
    pub fn by_random(&self, random: Random24) -> Option<Short>
        ensures { MatchOption result
            (HasRandom self.now.entries random → ⊥)
            (λ address. Has self.now.entries (address, random)) }
    {
        self.entries.by_random(random)
    }

    /// The entry of a short address, to be handed on; `None` if there is none. Only a card takes memory.
    ///
    /// `NoMemory` is the only refusal.
    pub fn card(&self, alloc: Global, address: Short) -> Result<Option<Box<Enrolled>>, TableError>
        ensures card { IfOk result (λ found. MatchOption found
            (HasAddress self.now.entries address → ⊥)
            (λ card. (card.value.short ≡ address) × Has self.now.entries (card.value.short, card.value.random))) }
        ensures refusal { IfErr result (λ e. e ≡ NoMemory) }
    {
        let Some(random) = self.by_address(address) else {
            return Ok(None);
        };
        match Box::new(alloc, Enrolled::of(address, random)) {
            Ok(card) => Ok(Some(card)),
            Err(_) => Err(TableError::NoMemory),
        }
    }

    /// Whether a short address lies in the block.
    pub fn is_own(&self, address: Short) -> bool
        ensures { IsTrue result ↔ InBlock self.now.block address }
    {
        self.block.first <= address && address <= self.block.last
    }
}
