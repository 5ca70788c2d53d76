ghost use Rattle.std.specs.Prelude.{◌≡◌, ◌≤◌};
ghost use Rattle.dali_controller.specs.Course.{search_turn, call_turn, byte_to_send, bytes_to_send};

use dali_frame::{Answer, SearchAddress, Short};
use dali_script::{End, Stage};
use dali_special::{Command, Part, Target};

/// What the running transaction is for. How far it is, its trace says.
#[derive(Clone, Copy)]
pub enum Purpose {
    /// To let all gear without short address draw a random address.
    Opening,
    /// To ask whether some gear is at most the search's number.
    Probing,
    /// To ask so, one number of the search that goes up after the other, in a survey.
    Hunting,
    /// To find the gear at a number, and to program it if it has no short address.
    Visiting,
    /// To ask the gear with a short address for its random address, if the gear with the random address that it is
    /// reserved for did not answer.
    Resolving(Short),
    /// To end the initialisation of all gear, and then to end so.
    Closing(End),
    /// To ask the gear with a short address for its random address, in a survey.
    Asking(Short),
    /// To call the roll: to ask all gear without short address whether one of them is there, in a survey. Gear that
    /// never drew a random address answer too.
    Calling,
    /// To let gear without short address draw a random address, unless one of them is heard that has drawn one, in a
    /// survey.
    Drawing,
    /// To take the gear at a number out of the search, without a short address, in a survey: its visits failed.
    PassingOver,
}

impl Purpose {
    ghost use Rattle.dali_controller.specs.Course.{closing_of, first_of};
    ghost use Rattle.dali_controller.specs.Course.{turn_of};

    /// The end with which a close was begun.
    pub(crate) fn end(self) -> Option<End>
        ensures { result ≡ closing_of self }
    {
        match self {
            Purpose::Closing(end) => Some(end),
            Purpose::Opening
            | Purpose::Probing
            | Purpose::Hunting
            | Purpose::Visiting
            | Purpose::Resolving(_)
            | Purpose::Asking(_)
            | Purpose::Calling
            | Purpose::Drawing
            | Purpose::PassingOver => None,
        }
    }

    /// The first command of the transaction.
    pub(crate) fn first(&self, number: SearchAddress) -> Command
        ensures { result ≡ first_of self.now number }
    {
        match *self {
            Purpose::Opening | Purpose::Calling | Purpose::Drawing | Purpose::Closing(_) => {
                Command::Terminate
            }
            Purpose::Probing | Purpose::Hunting | Purpose::Visiting | Purpose::PassingOver => {
                Command::SearchHigh(number.high)
            }
            Purpose::Resolving(short) | Purpose::Asking(short) => {
                Command::RandomByte(short, Part::High)
            }
        }
    }

    /// The command that the transaction sends at a stage past the first, except PROGRAM SHORT ADDRESS.
    #[inline(always)]
    pub(crate) fn turn(self, number: SearchAddress, stage: &Stage) -> Option<Command>
        ensures { result ≡ turn_of self number stage.now }
    {
        match self {
            Purpose::Opening => match *stage {
                Stage::Terminated | Stage::InitialisedOnce => {
                    Some(Command::Initialise(Target::Unaddressed))
                }
                Stage::Initialised | Stage::RandomisedOnce => Some(Command::Randomise),
                _ => None,
            },
            Purpose::Probing => match *stage {
                Stage::NumberSent(_) => Some(Command::Compare),
                _ => search_turn(number, stage),
            },
            Purpose::Hunting => match *stage {
                Stage::HighSent(_) => Some(Command::SearchLow(number.low)),
                Stage::LowSent(..) => Some(Command::SearchMiddle(number.middle)),
                Stage::Hunted(sent, None, _) => Some(byte_to_send(number, sent)),
                _ => None,
            },
            Purpose::Visiting => match *stage {
                Stage::NumberSent(_) | Stage::Programmed(..) => Some(Command::QueryShort),
                Stage::Found(..) | Stage::Confirmed(..) => Some(Command::Withdraw),
                _ => search_turn(number, stage),
            },
            Purpose::Resolving(_) => match *stage {
                Stage::HighAsked(short, _) => Some(Command::RandomByte(short, Part::Middle)),
                Stage::MiddleAsked(short, _) => Some(Command::RandomByte(short, Part::Low)),
                _ => None,
            },
            Purpose::Closing(_) => None,
            Purpose::Asking(_) => match *stage {
                Stage::HighAsked(short, Some(_)) => Some(Command::RandomByte(short, Part::Middle)),
                Stage::MiddleAsked(short, Some(_)) => Some(Command::RandomByte(short, Part::Low)),
                _ => None,
            },
            Purpose::Calling => match *stage {
                Stage::Terminated | Stage::InitialisedOnce => {
                    Some(Command::Initialise(Target::Unaddressed))
                }
                Stage::Initialised => Some(Command::SearchHigh(number.high)),
                Stage::WokenHigh(_) => Some(Command::SearchLow(number.low)),
                Stage::WokenLow(..) => Some(Command::SearchMiddle(number.middle)),
                Stage::Hunted(_, last, left) => call_turn(last, left),
                _ => None,
            },
            Purpose::Drawing => match *stage {
                Stage::Terminated | Stage::InitialisedOnce => {
                    Some(Command::Initialise(Target::Unaddressed))
                }
                Stage::Initialised => Some(Command::SearchHigh(number.high)),
                Stage::WokenHigh(_) => Some(Command::SearchMiddle(number.middle)),
                Stage::WokenMiddle(..) => Some(Command::Compare),
                Stage::DrawFree | Stage::RandomisedOnce => Some(Command::Randomise),
                _ => None,
            },
            Purpose::PassingOver => match *stage {
                Stage::NumberSent(_) => Some(Command::Withdraw),
                _ => search_turn(number, stage),
            },
        }
    }
}

/// In a roll call COMPARE, and once more if the first was silent.
pub(crate) fn call_turn(last: Option<Answer>, left: u8) -> Option<Command>
    ensures { result ≡ call_turn last left }
{
    match last {
        None => Some(Command::Compare),
        Some(Answer::Silence) if left == 1 => Some(Command::Compare),
        Some(Answer::Silence | Answer::Byte(_) | Answer::Damaged) => None,
    }
}

/// The second and the third search command.
fn search_turn(number: SearchAddress, stage: &Stage) -> Option<Command>
    ensures { result ≡ search_turn number stage.now }
{
    match *stage {
        Stage::HighSent(_) => Some(Command::SearchMiddle(number.middle)),
        Stage::MiddleSent(..) => Some(Command::SearchLow(number.low)),
        _ => None,
    }
}

/// In a hunt the first search byte that is not yet that of the number, and COMPARE once all are.
pub(crate) fn byte_to_send(number: SearchAddress, sent: SearchAddress) -> Command
    ensures { result ≡ byte_to_send number sent }
{
    if sent.high != number.high {
        Command::SearchHigh(number.high)
    } else if sent.low != number.low {
        Command::SearchLow(number.low)
    } else if sent.middle != number.middle {
        Command::SearchMiddle(number.middle)
    } else {
        Command::Compare
    }
}

/// How many search bytes are not yet those of the number.
pub(crate) fn bytes_to_send(number: SearchAddress, sent: SearchAddress) -> u8
    ensures value { result ≡ bytes_to_send number sent }
    ensures most { result ≤ 3 }
{
    u8::from(sent.high != number.high)
        + u8::from(sent.low != number.low)
        + u8::from(sent.middle != number.middle)
}
