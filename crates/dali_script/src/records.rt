ghost use Rattle.std.specs.Prelude.{◌≡◌};
ghost use Rattle.dali_script.specs.Names.{record_name, record_code, record_by};
ghost use Rattle.dali_script.specs.Records.{address_of, random_of};
ghost use Rattle.dali_script.specs.Refusals.{number_of_add};

use dali_frame::{Random24, Short};
use thiserror::Error;

/// What a controller decides once and for all: a short address, and the random address of the gear that it is for.
#[derive(Clone, Copy, Debug, PartialEq, Eq)]
pub enum Record {
    /// The address is kept for the gear with this random address, and may be programmed into it alone.
    Reserve(Short, Random24),
    /// The gear with this random address was found with this short address.
    Enrol(Short, Random24),
    /// The address was kept for the gear with this random address, and is free again: the gear was found with another.
    Release(Short, Random24),
}

impl Record {
    /// What it is called in reports and on pages.
    pub fn name(self) -> &'static str
        ensures { result.now ≡ record_name self }
    {
        match self {
            Record::Reserve(..) => "reserve",
            Record::Enrol(..) => "enrol",
            Record::Release(..) => "release",
        }
    }

    /// The code of its kind, in the table of a store and in a struct for C.
    pub fn code(self) -> u8
        ensures { result ≡ record_code self }
    {
        match self {
            Record::Reserve(..) => 1,
            Record::Enrol(..) => 2,
            Record::Release(..) => 3,
        }
    }

    /// The record of the kind that has this code, with these addresses. None if no kind has it.
    pub fn of_code(code: u8, address: Short, random: Random24) -> Option<Record>
        ensures { result ≡ record_by code address random }
    {
        match code {
            1 => Some(Record::Reserve(address, random)),
            2 => Some(Record::Enrol(address, random)),
            3 => Some(Record::Release(address, random)),
            _ => None,
        }
    }

    /// The short address.
    pub fn address(self) -> Short
        ensures { result ≡ address_of self }
    {
        match self {
            Record::Reserve(address, _) | Record::Enrol(address, _) | Record::Release(address, _) =>
                address,
        }
    }

    /// The random address of the gear that it is for.
    pub fn random(self) -> Random24
        ensures { result ≡ random_of self }
    {
        match self {
            Record::Reserve(_, random) | Record::Enrol(_, random) | Record::Release(_, random) =>
                random,
        }
    }
}

/// Why a record is not added. The numbers never change.
#[derive(Clone, Copy, Debug, PartialEq, Eq, Error)]
pub enum AddError {
    /// 3: a record of this kind has the short address.
    #[error("the short address has a record of this kind")]
    AddressTaken,
    /// 4: a record of this kind has the random address.
    #[error("the random address has a record of this kind")]
    RandomTaken,
    /// 6: the short address is not reserved for the random address.
    #[error("the short address is not reserved for the random address")]
    NotReserved,
}

impl AddError {
    /// The refusal's number.
    pub fn number(self) -> u8
        ensures { result ≡ number_of_add self }
    {
        match self {
            AddError::AddressTaken => 3,
            AddError::RandomTaken => 4,
            AddError::NotReserved => 6,
        }
    }
}
