ghost use Rattle.std.specs.Prelude.{◌≡◌, Some};
ghost use Rattle.dali_standing.specs.Refusals.{refusal_number, name_of};

use std::alloc::AllocError;
use std::error::Error;
use std::fmt;

/// Why a call of a site is refused. The numbers never change.
///
/// The first cause that holds is answered, in the order of the numbers: a controller or a gear that is not there comes
/// first. No call is refused both for want of memory and for an address that is in use.
#[derive(Clone, Copy, Debug, PartialEq, Eq)]
pub enum Refusal {
    /// 1: the site has no controller of this number.
    UnknownController,
    /// 1: the site has no gear of this number.
    UnknownGear,
    /// 2: the controller is down.
    ControllerDown,
    /// 2: the controller is up.
    ControllerUp,
    /// 3: the controller was not told this.
    NotDue,
    /// 4: the frame is not direct arc power.
    NotArc,
    /// 5: the records are not those that the controller keeps, and not those with the record that is outstanding.
    StoreDisagrees,
    /// 6: the gear would draw more numbers than the plan has left.
    DrawsSpent,
    /// 7: no more requests may wait.
    QueueFull,
    /// 8: the log has no room for one more event.
    LogFull,
    /// 9: there is too little memory.
    NoMemory,
    /// 10: the controller would reserve a short address that used gear have.
    AddressInUse,
    /// 11: no other device may send the frame: it is an addressing command, RESET or SET SHORT ADDRESS.
    NotForeign,
}

impl Refusal {
    /// The refusal's number.
    pub fn number(self) -> u8
        ensures { result ≡ refusal_number self }
    {
        match self {
            Refusal::UnknownController | Refusal::UnknownGear => 1,
            Refusal::ControllerDown | Refusal::ControllerUp => 2,
            Refusal::NotDue => 3,
            Refusal::NotArc => 4,
            Refusal::StoreDisagrees => 5,
            Refusal::DrawsSpent => 6,
            Refusal::QueueFull => 7,
            Refusal::LogFull => 8,
            Refusal::NoMemory => 9,
            Refusal::AddressInUse => 10,
            Refusal::NotForeign => 11,
        }
    }

    /// The refusal's name.
    fn name(self) -> &'static str
        ensures { result.now ≡ name_of self }
    {
        match self {
            Refusal::UnknownController => "UnknownController",
            Refusal::UnknownGear => "UnknownGear",
            Refusal::ControllerDown => "ControllerDown",
            Refusal::ControllerUp => "ControllerUp",
            Refusal::NotDue => "NotDue",
            Refusal::NotArc => "NotArc",
            Refusal::StoreDisagrees => "StoreDisagrees",
            Refusal::DrawsSpent => "DrawsSpent",
            Refusal::QueueFull => "QueueFull",
            Refusal::LogFull => "LogFull",
            Refusal::NoMemory => "NoMemory",
            Refusal::AddressInUse => "AddressInUse",
            Refusal::NotForeign => "NotForeign",
        }
    }
}

impl fmt::Display for Refusal {
    ghost output = { λ e. Some (name_of e) };

    fn fmt<W: fmt::Write>(&self, f: &mut fmt::Formatter<W>) -> fmt::Result {
        f.write_str(self.name())
    }
}

impl Error for Refusal {}

impl From<AllocError> for Refusal {
    ghost use Rattle.dali_standing.specs.declared.refusal.Refusal.TheVariants.{NoMemory};

    ghost from_gives = { λ _ e. e ≡ NoMemory };

    fn from(_error: AllocError) -> Refusal {
        Refusal::NoMemory
    }
}
