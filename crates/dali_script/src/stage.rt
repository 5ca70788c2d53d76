ghost use Rattle.std.specs.Prelude.{◌≡◌, ◌↔◌, true, IsSome, IfSome};
ghost use Rattle.dali_script.specs.Commands.{is_initialise, is_query};
ghost use Rattle.dali_script.specs.Stages.{hunted, byte_heard, bytes_heard, number_heard};
ghost use Rattle.dali_script.specs.declared.stage.Stage.TheVariants.{Free};

use crate::finding::Finding;
use crate::reading::Records;
use dali_frame::{Answer, Random24, SearchAddress, Short};
use dali_special::{Command, Part, Target};

/// How far a transaction is.
#[derive(Clone, Copy)]
pub enum Stage {
    /// No frame was sent.
    Free,
    /// TERMINATE was sent: the start of an opening, or all of a close.
    Terminated,
    /// INITIALISE for gear without short address was sent once.
    InitialisedOnce,
    /// INITIALISE was sent twice.
    Initialised,
    /// SEARCHADDRH was sent once gear were initialised: in a roll call, or to ask once more before they draw.
    WokenHigh(u8),
    /// SEARCHADDRH and SEARCHADDRL were sent once gear were initialised: in a roll call.
    WokenLow(u8, u8),
    /// SEARCHADDRH and SEARCHADDRM were sent once gear were initialised, to ask once more before they draw.
    WokenMiddle(u8, u8),
    /// COMPARE was sent before gear draw, and heard as silence: they may draw.
    DrawFree,
    /// COMPARE was sent before gear draw, and was answered: no gear draws.
    DrawBarred,
    /// RANDOMISE was sent once.
    RandomisedOnce,
    /// RANDOMISE was sent twice: the opening is complete.
    Opened,
    /// SEARCHADDRH was sent.
    HighSent(u8),
    /// SEARCHADDRH and SEARCHADDRM were sent.
    MiddleSent(u8, u8),
    /// All of the search address was sent.
    NumberSent(SearchAddress),
    /// SEARCHADDRH and SEARCHADDRL were sent: the start of a hunt.
    LowSent(u8, u8),
    /// A hunt or a roll call is under way: its search address as it is now; what was heard after COMPARE, if that
    /// was sent last; and how many frames may follow.
    Hunted(SearchAddress, Option<Answer>, u8),
    /// COMPARE was sent, and this was heard.
    Probed(SearchAddress, Answer),
    /// QUERY SHORT ADDRESS was heard as this short address.
    Found(SearchAddress, Short),
    /// QUERY SHORT ADDRESS was heard as MASK, `FF`: the gear has no short address.
    Unnamed(SearchAddress),
    /// QUERY SHORT ADDRESS was heard as silence: no gear with this random address answers, or its answer was lost.
    Unanswered(SearchAddress),
    /// QUERY SHORT ADDRESS was heard damaged, or as a byte that is neither; or, after PROGRAM SHORT ADDRESS, not as the
    /// address programmed. The address is another one that was heard then.
    Inconclusive(SearchAddress, Option<Short>),
    /// PROGRAM SHORT ADDRESS was sent with this address.
    Programmed(SearchAddress, Short),
    /// After PROGRAM SHORT ADDRESS, QUERY SHORT ADDRESS was heard as the address programmed.
    Confirmed(SearchAddress, Short),
    /// WITHDRAW was sent to the gear with this short address.
    Withdrawn(SearchAddress, Short),
    /// WITHDRAW was sent to the gear at this search address, which was not asked for its short address.
    PassedOver(SearchAddress),
    /// QUERY RANDOM ADDRESS (H) was sent to this short address, and heard as this byte, or not as a byte.
    HighAsked(Short, Option<u8>),
    /// QUERY RANDOM ADDRESS (H) and (M) were sent to this short address, and both heard as these bytes, or not.
    MiddleAsked(Short, Option<(u8, u8)>),
    /// QUERY RANDOM ADDRESS (H), (M) and (L) were sent to this short address, and heard as the bytes of this random
    /// address, or one of them not as a byte.
    Spelled(Short, Option<Random24>),
    /// Nothing may follow: direct arc power was sent; or the frames are the front of no script.
    Over,
}

impl Stage {
    ghost use Rattle.dali_script.specs.Stages.{leads, next_stage, doubted, queried, verified, follows, given};
    ghost use Rattle.dali_script.specs.Stages.{may_follow, finding_at, may_come, is_drawn_if};

    /// How many frames of a hunt may follow its first three: eight in all.
    const ASKING: u8 = 5;

    /// How many frames of a roll call may follow its first six: eight in all.
    const CALLING: u8 = 2;

    /// The stage that the first command of a script leads to.
    fn first(command: Command, heard: Answer) -> Option<Stage>
        ensures { result ≡ leads Free command heard }
    {
        match command {
            Command::Terminate => Some(Stage::Terminated),
            Command::SearchHigh(high) => Some(Stage::HighSent(high)),
            Command::RandomByte(short, part) => match part {
                Part::High => Some(Stage::HighAsked(short, byte_heard(heard))),
                Part::Middle | Part::Low => None,
            },
            Command::Arc(_) => Some(Stage::Over),
            _ => None,
        }
    }

    /// The stage that a command leads to, if it may come next in a script.
    #[inline(always)]
    fn next(self, command: Command, heard: Answer) -> Option<Stage>
        ensures { result ≡ leads self command heard }
    {
        match self {
            Stage::Free => Stage::first(command, heard),
            Stage::Terminated if is_initialise(command) => Some(Stage::InitialisedOnce),
            Stage::InitialisedOnce if is_initialise(command) => Some(Stage::Initialised),
            Stage::Initialised => match command {
                Command::Randomise => Some(Stage::RandomisedOnce),
                Command::SearchHigh(high) => Some(Stage::WokenHigh(high)),
                _ => None,
            },
            Stage::WokenHigh(high) => match command {
                Command::SearchLow(low) => Some(Stage::WokenLow(high, low)),
                Command::SearchMiddle(middle) => Some(Stage::WokenMiddle(high, middle)),
                _ => None,
            },
            Stage::WokenLow(high, low) => match command {
                Command::SearchMiddle(middle) => {
                    let number = SearchAddress { high, middle, low };
                    Some(Stage::Hunted(number, None, Stage::CALLING))
                }
                _ => None,
            },
            Stage::WokenMiddle(..) if matches!(command, Command::Compare) => {
                Some(Stage::doubted(heard))
            }
            Stage::DrawFree if matches!(command, Command::Randomise) => Some(Stage::RandomisedOnce),
            Stage::RandomisedOnce if matches!(command, Command::Randomise) => Some(Stage::Opened),
            Stage::HighSent(high) => match command {
                Command::SearchMiddle(middle) => Some(Stage::MiddleSent(high, middle)),
                Command::SearchLow(low) => Some(Stage::LowSent(high, low)),
                _ => None,
            },
            Stage::LowSent(high, low) => match command {
                Command::SearchMiddle(middle) => {
                    let number = SearchAddress { high, middle, low };
                    Some(Stage::Hunted(number, None, Stage::ASKING))
                }
                _ => None,
            },
            Stage::Hunted(number, _, left) if left > 0 => hunted(number, left - 1, command, heard),
            Stage::MiddleSent(high, middle) => match command {
                Command::SearchLow(low) => {
                    Some(Stage::NumberSent(SearchAddress { high, middle, low }))
                }
                _ => None,
            },
            Stage::NumberSent(number) => match command {
                Command::Compare => Some(Stage::Probed(number, heard)),
                Command::QueryShort => Some(Stage::queried(number, heard)),
                Command::Withdraw => Some(Stage::PassedOver(number)),
                _ => None,
            },
            Stage::Unnamed(number) => match command {
                Command::Program(short) => Some(Stage::Programmed(number, short?)),
                _ => None,
            },
            Stage::Programmed(number, short) if matches!(command, Command::QueryShort) => {
                Some(Stage::verified(number, short, heard))
            }
            Stage::Found(number, short) | Stage::Confirmed(number, short)
                if matches!(command, Command::Withdraw) => { Some(Stage::Withdrawn(number, short)) }
            Stage::HighAsked(short, high) if is_query(command, short, Part::Middle) => Some(
                Stage::MiddleAsked(short, bytes_heard(high, heard)),
            ),
            Stage::MiddleAsked(short, bytes) if is_query(command, short, Part::Low) => Some(
                Stage::Spelled(short, number_heard(bytes, heard)),
            ),
            _ => None,
        }
    }

    /// One more frame was sent, and this was heard.
    #[inline(always)]
    pub(crate) fn advance(&mut self, command: Command, heard: Answer)
        ensures { self.new ≡ next_stage self.old command heard }
    {
        *self = match self.next(command, heard) {
            Some(stage) => stage,
            None => Stage::Over,
        };
    }

    /// Whether a command may come next, for a sender with these records.
    pub(crate) fn allows(self, kept: &Records<'_>, command: Command) -> bool
        ensures { result ≡ follows kept.now.block kept.now.reserved self command }
    {
        let given = self.given(&command);
        match self.next(command, Answer::Silence) {
            Some(_) => match given {
                Some((number, short)) => kept.may_give(number.value(), short),
                None => true,
            },
            None => false,
        }
    }

    /// How far it is once a command was sent and this was heard. None if it may not come next, for any sender.
    pub fn led_by(self, command: Command, heard: Answer) -> Option<Stage>
        ensures comes { IsSome result ↔ (may_come self command ≡ true) }
        ensures stage { IfSome result (λ s. s ≡ next_stage self command heard) }
    {
        if self.is_given_drawn(&command) {
            self.next(command, heard)
        } else {
            None
        }
    }

    /// Whether what is given, if anything, is given to a number that gear draw.
    #[inline(always)]
    fn is_given_drawn(&self, command: &Command) -> bool
        ensures { result ≡ is_drawn_if (given self.now command.now) }
    {
        match self.given(command) {
            Some((number, _)) => number.value() < Random24::MASK,
            None => true,
        }
    }

    /// The address that is given to the gear at a search address, by a command or by one before it.
    fn given(&self, command: &Command) -> Option<(SearchAddress, Short)>
        ensures { result ≡ given self.now command.now }
    {
        match *self {
            Stage::Unnamed(number) => match *command {
                Command::Program(short) => Some((number, short?)),
                _ => None,
            },
            Stage::Programmed(number, short) | Stage::Confirmed(number, short) => {
                Some((number, short))
            }
            _ => None,
        }
    }

    /// Whether some command may come next, for a sender with these records.
    #[inline(always)]
    pub fn goes_on(self, kept: &Records<'_>) -> bool
        ensures { result ≡ may_follow kept.now.block kept.now.reserved self }
    {
        match self {
            Stage::Unnamed(number) => kept.may_give_some(number.value()),
            Stage::Programmed(number, short) | Stage::Confirmed(number, short) => {
                kept.may_give(number.value(), short)
            }
            Stage::Opened
            | Stage::DrawBarred
            | Stage::PassedOver(_)
            | Stage::Probed(..)
            | Stage::Unanswered(_)
            | Stage::Inconclusive(..)
            | Stage::Withdrawn(..)
            | Stage::Spelled(..)
            | Stage::Over => false,
            Stage::Hunted(_, _, left) => left > 0,
            _ => true,
        }
    }

    /// The finding of a transaction at this stage.
    pub fn finding(self) -> Option<Finding>
        ensures { result ≡ finding_at self }
    {
        let (number, found) = match self {
            Stage::Found(number, short)
            | Stage::Confirmed(number, short)
            | Stage::Withdrawn(number, short) => (number, Some(short)),
            Stage::Inconclusive(number, other) => (number, other),
            Stage::Spelled(short, number) => return Some(Finding::Resolved(short, number?)),
            _ => return None,
        };
        Some(Finding::Queried(found?, number.value()))
    }

    /// The stage after the question whether gear are to be searched, before gear draw.
    fn doubted(heard: Answer) -> Stage
        ensures { result ≡ doubted heard }
    {
        match heard {
            Answer::Silence => Stage::DrawFree,
            Answer::Byte(_) | Answer::Damaged => Stage::DrawBarred,
        }
    }

    /// The stage after the first QUERY SHORT ADDRESS.
    fn queried(number: SearchAddress, heard: Answer) -> Stage
        ensures { result ≡ queried number heard }
    {
        match heard {
            Answer::Byte(byte) => match Short::read(byte) {
                Some(short) => Stage::Found(number, short),
                None if byte == 0xFF => Stage::Unnamed(number),
                None => Stage::Inconclusive(number, None),
            },
            Answer::Silence => Stage::Unanswered(number),
            Answer::Damaged => Stage::Inconclusive(number, None),
        }
    }

    /// The stage after the QUERY SHORT ADDRESS that follows PROGRAM SHORT ADDRESS.
    fn verified(number: SearchAddress, given: Short, heard: Answer) -> Stage
        ensures { result ≡ verified number given heard }
    {
        let named = match heard {
            Answer::Byte(byte) => Short::read(byte),
            Answer::Silence | Answer::Damaged => None,
        };
        match named {
            Some(short) if short == given => Stage::Confirmed(number, given),
            other => Stage::Inconclusive(number, other),
        }
    }
}

/// INITIALISE for gear without short address.
fn is_initialise(command: Command) -> bool
    ensures { result ≡ is_initialise command }
{
    match command {
        Command::Initialise(target) => matches!(target, Target::Unaddressed),
        _ => false,
    }
}

/// QUERY RANDOM ADDRESS to a short address, for a byte.
fn is_query(command: Command, short: Short, part: Part) -> bool
    ensures { result ≡ is_query command short part }
{
    match command {
        Command::RandomByte(other, asked) => asked == part && other == short,
        _ => false,
    }
}

/// The stage after one more frame of a hunt, if so many may follow it.
fn hunted(number: SearchAddress, left: u8, command: Command, heard: Answer) -> Option<Stage>
    ensures { result ≡ hunted number left command heard }
{
    let SearchAddress { high, middle, low } = number;
    match command {
        Command::SearchHigh(high) => {
            Some(Stage::Hunted(SearchAddress { high, middle, low }, None, left))
        }
        Command::SearchMiddle(middle) => {
            Some(Stage::Hunted(SearchAddress { high, middle, low }, None, left))
        }
        Command::SearchLow(low) => {
            Some(Stage::Hunted(SearchAddress { high, middle, low }, None, left))
        }
        Command::Compare => Some(Stage::Hunted(number, Some(heard), left)),
        _ => None,
    }
}

/// The byte that was heard.
fn byte_heard(heard: Answer) -> Option<u8>
    ensures { result ≡ byte_heard heard }
{
    match heard {
        Answer::Byte(byte) => Some(byte),
        _ => None,
    }
}

/// The high and the middle byte, if both were heard.
fn bytes_heard(high: Option<u8>, heard: Answer) -> Option<(u8, u8)>
    ensures { result ≡ bytes_heard high heard }
{
    let high = high?;
    Some((high, byte_heard(heard)?))
}

/// The number of three bytes that were all heard.
fn number_heard(bytes: Option<(u8, u8)>, heard: Answer) -> Option<Random24>
    ensures { result ≡ number_heard bytes heard }
{
    let (high, middle) = bytes?;
    Some(Random24::from_bytes(high, middle, byte_heard(heard)?))
}
