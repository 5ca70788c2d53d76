//! What is told of a capture.

ghost use Rattle.std.specs.Prelude.{◌≡◌};
ghost use Rattle.dali_audit.specs.Findings.{kind_name};

/// A rule that was broken. The names never change.
#[derive(Clone, Copy, Debug, PartialEq, Eq)]
pub enum Kind {
    /// What was on the bus is neither a frame nor an answer.
    DamagedFrame,
    /// The answer to a question is damaged, and it was no COMPARE.
    DamagedAnswer,
    /// A backward frame where no gear may answer.
    UnaskedAnswer,
    /// An answer that gear give in an initialisation alone, when none is in force.
    NotInitialised,
    /// A forward frame too soon after the end of the frame before.
    SettlingTime,
    /// The first frame of a pair, after which another frame came.
    HalfPair,
    /// The second frame of a pair ended more than 100 ms after the first one began.
    LatePair,
    /// An addressing command less than 100 ms after RANDOMISE.
    EarlyFrame,
    /// A command for gear in an initialisation, more than 15 minutes after the last INITIALISE.
    InitialisationOver,
    /// PROGRAM SHORT ADDRESS, and the next addressing command, but for search bytes, does not ask for it.
    NotQueried,
    /// PROGRAM SHORT ADDRESS at a search address at which no gear answered.
    NotFound,
    /// PROGRAM SHORT ADDRESS at a search address under which several gear were heard, as after it.
    SeveralProgrammed,
    /// PROGRAM SHORT ADDRESS of an address under which another gear was heard.
    AddressTaken,
    /// PROGRAM SHORT ADDRESS of a gear that was given another one and heard under it.
    AddressMoved,
    /// Two random addresses were heard under one short address.
    TwoRandomAddresses,
    /// One random address was heard under two short addresses.
    TwoShortAddresses,
    /// RANDOMISE lets gear draw that have short addresses.
    Redrawn,
    /// PROGRAM SHORT ADDRESS with a byte that is no short address.
    NotAnAddress,
    /// RESET of all gear.
    ResetOfAll,
    /// SET SHORT ADDRESS to all gear.
    SetForAll,
    /// COMPARE after TERMINATE, heard as silence, and no search begins anew until the capture ends.
    CutOff,
    /// INITIALISE, and no TERMINATE until the capture ends.
    NotTerminated,
}

/// All of them, in the order in which they are told of one item; the last two are told of the end alone.
pub const KINDS: [Kind; 22] = [
    Kind::DamagedFrame,
    Kind::DamagedAnswer,
    Kind::UnaskedAnswer,
    Kind::NotInitialised,
    Kind::SettlingTime,
    Kind::HalfPair,
    Kind::LatePair,
    Kind::EarlyFrame,
    Kind::InitialisationOver,
    Kind::NotQueried,
    Kind::NotFound,
    Kind::SeveralProgrammed,
    Kind::AddressTaken,
    Kind::AddressMoved,
    Kind::TwoRandomAddresses,
    Kind::TwoShortAddresses,
    Kind::Redrawn,
    Kind::NotAnAddress,
    Kind::ResetOfAll,
    Kind::SetForAll,
    Kind::CutOff,
    Kind::NotTerminated,
];

impl Kind {
    /// What it is called in reports.
    pub fn name(self) -> &'static str
        ensures { result.now ≡ kind_name self }
    {
        match self {
            Kind::DamagedFrame => "damaged-frame",
            Kind::DamagedAnswer => "damaged-answer",
            Kind::UnaskedAnswer => "unasked-answer",
            Kind::NotInitialised => "not-initialised",
            Kind::SettlingTime => "settling-time",
            Kind::HalfPair => "half-pair",
            Kind::LatePair => "late-pair",
            Kind::EarlyFrame => "early-frame",
            Kind::InitialisationOver => "initialisation-over",
            Kind::NotQueried => "not-queried",
            Kind::NotFound => "not-found",
            Kind::SeveralProgrammed => "several-programmed",
            Kind::AddressTaken => "address-taken",
            Kind::AddressMoved => "address-moved",
            Kind::TwoRandomAddresses => "two-random-addresses",
            Kind::TwoShortAddresses => "two-short-addresses",
            Kind::Redrawn => "redrawn",
            Kind::NotAnAddress => "not-an-address",
            Kind::ResetOfAll => "reset-of-all",
            Kind::SetForAll => "set-for-all",
            Kind::CutOff => "cut-off",
            Kind::NotTerminated => "not-terminated",
        }
    }
}

/// A rule that was broken, and the time of the frame that broke it, in µs since the capture began.
#[derive(Clone, Copy)]
pub struct Finding {
    pub at: u64,
    pub kind: Kind,
}
