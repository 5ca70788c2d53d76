ghost use Rattle.std.specs.Prelude.{◌≡◌};

use dali_frame::{Random24, Short};
use std::marker::Model;

/// A gear that was enrolled: its short address and its random address.
///
/// Only `Table::card` makes one, so its holder has an entry of some table. It is not copied.
///
/// Contracts see the two numbers.
#[derive(Drop)]
pub struct Enrolled {
    short: Short,
    random: Random24,
}

impl Model for Enrolled {
    ghost use Rattle.dali_script.specs.Table.{Enrolled};

    ghost Value = { Enrolled };

    ghost view = { λ e. record { short = e.short; random = e.random } };
}

impl Enrolled {
    ghost use Rattle.dali_script.specs.Table.{entry};

    pub(crate) fn of(short: Short, random: Random24) -> Enrolled
        ensures { result ≡ entry short random }
    {
        Enrolled { short, random }
    }

    /// The short address with which the gear was enrolled.
    pub fn short(&self) -> Short
        ensures { result ≡ self.now.short }
    {
        self.short
    }

    /// The random address of the gear.
    pub fn random(&self) -> Random24
        ensures { result ≡ self.now.random }
    {
        self.random
    }
}
