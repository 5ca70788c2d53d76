//! Gear without short address: whether there is any, and any other than one. And whether a gear hangs at an address.

ghost use Rattle.std.specs.Prelude.{◌≡◌, ◌||◌, true, List, Some, None, Ok, Err, IfOk, IfErr};
ghost use Rattle.dali_frame.specs.declared.frames.Answer.{Answer};
ghost use Rattle.dali_script.specs.declared.orders.Input.{Input};
ghost use Rattle.dali_commissioning.specs.Drivers.{talk_of, fault_of, is_lost, IsCut};
ghost use Rattle.dali_commissioning.specs.Unaddressed.{put_so, is_yes, joined_yes, ArePut, found_by};
ghost use Rattle.dali_commissioning.specs.Unaddressed.{asking, asking_beside, asking_under, AreLeftOver, AreLostSo};

use crate::driver::{DriverFault, DriverLink};
use crate::fault::CommissionFault;
use dali_frame::{Answer, Forward, Priority, Random24, Short};
use dali_script::{Half, Input};
use dali_special::{Command, Target};
use std::io::{Read, Write};

/// How often in a row the frames may be lost.
const LOST: u8 = 8;

/// Which answer to a frame says that gear is there.
#[derive(Clone, Copy)]
pub enum Asks {
    /// None: it asks nothing.
    Nothing,
    /// Any, also a damaged one.
    Any,
    /// This byte.
    Byte(u8),
}

/// A frame that is put, and how.
#[derive(Clone, Copy)]
pub struct Putting {
    pub priority: Priority,
    pub frame: Forward,
    pub half: Half,
    pub asks: Asks,
}

fn put_so(priority: Priority, command: Command, half: Half, asks: Asks) -> Putting
    ensures { result ≡ put_so priority command half asks }
{
    Putting {
        priority,
        frame: command.write(),
        half,
        asks,
    }
}

/// The frames that ask: gear without short address are initialised, as in a roll call; they are asked three times under
/// `FFFFFF`, which no number of a gear is above; and the initialisation is ended.
fn asking() -> [Putting; 10]
    ensures { result ≡ asking }
{
    let (first, later) = (Priority::FIRST, Priority::LATER);
    [
        put_so(first, Command::Terminate, Half::Whole, Asks::Nothing),
        put_so(
            later,
            Command::Initialise(Target::Unaddressed),
            Half::First,
            Asks::Nothing,
        ),
        put_so(
            later,
            Command::Initialise(Target::Unaddressed),
            Half::Second,
            Asks::Nothing,
        ),
        put_so(first, Command::SearchHigh(0xFF), Half::Whole, Asks::Nothing),
        put_so(later, Command::SearchLow(0xFF), Half::Whole, Asks::Nothing),
        put_so(
            later,
            Command::SearchMiddle(0xFF),
            Half::Whole,
            Asks::Nothing,
        ),
        put_so(later, Command::Compare, Half::Whole, Asks::Any),
        put_so(later, Command::Compare, Half::Whole, Asks::Any),
        put_so(later, Command::Compare, Half::Whole, Asks::Any),
        put_so(first, Command::Terminate, Half::Whole, Asks::Nothing),
    ]
}

/// The same, if gear with this random address are withdrawn first: they do not answer then.
fn asking_beside(random: Random24) -> [Putting; 14]
    ensures { result ≡ asking_beside random }
{
    let later = Priority::LATER;
    let high = Command::SearchHigh(random.high());
    let middle = Command::SearchMiddle(random.middle());
    let low = Command::SearchLow(random.low());
    let [
        end,
        once,
        twice,
        byte,
        low_byte,
        bytes,
        ask,
        again,
        last,
        over,
    ] = asking();
    [
        end,
        once,
        twice,
        put_so(Priority::FIRST, high, Half::Whole, Asks::Nothing),
        put_so(later, middle, Half::Whole, Asks::Nothing),
        put_so(later, low, Half::Whole, Asks::Nothing),
        put_so(later, Command::Withdraw, Half::Whole, Asks::Nothing),
        byte,
        low_byte,
        bytes,
        ask,
        again,
        last,
        over,
    ]
}

/// The frames that ask whether a gear with this random address has a short address: the gear with that are initialised,
/// the one is asked twice for its short address, and the initialisation is ended.
fn asking_under(short: Short, random: Random24) -> [Putting; 9]
    ensures { result ≡ asking_under short random }
{
    let (first, later, own) = (Priority::FIRST, Priority::LATER, short.code());
    let high = Command::SearchHigh(random.high());
    let middle = Command::SearchMiddle(random.middle());
    let low = Command::SearchLow(random.low());
    [
        put_so(first, Command::Terminate, Half::Whole, Asks::Nothing),
        put_so(
            later,
            Command::Initialise(Target::Addressed(short)),
            Half::First,
            Asks::Nothing,
        ),
        put_so(
            later,
            Command::Initialise(Target::Addressed(short)),
            Half::Second,
            Asks::Nothing,
        ),
        put_so(later, high, Half::Whole, Asks::Nothing),
        put_so(later, middle, Half::Whole, Asks::Nothing),
        put_so(later, low, Half::Whole, Asks::Nothing),
        put_so(later, Command::QueryShort, Half::Whole, Asks::Byte(own)),
        put_so(later, Command::QueryShort, Half::Whole, Asks::Byte(own)),
        put_so(first, Command::Terminate, Half::Whole, Asks::Nothing),
    ]
}

/// Whether an answer to a frame says that gear is there.
fn is_yes(asks: Asks, heard: Answer) -> bool
    ensures { result ≡ is_yes asks heard }
{
    match (asks, heard) {
        (Asks::Nothing, _) | (_, Answer::Silence) | (Asks::Byte(_), Answer::Damaged) => false,
        (Asks::Any, Answer::Byte(_) | Answer::Damaged) => true,
        (Asks::Byte(wanted), Answer::Byte(byte)) => byte == wanted,
    }
}

fn joined_yes(here: bool, later: Option<bool>) -> Option<bool>
    ensures { result ≡ joined_yes here later }
{
    match later {
        Some(found) => Some(here || found),
        None => None,
    }
}

/// Puts frames one after the other. Whether one of them was heard to find gear; None if one was lost.
fn put_all<R: Read, W: Write>(
    driver: &mut DriverLink<R, W>,
    puttings: &[Putting],
) -> Result<Option<bool>, DriverFault>
    ensures lost { result ≡ Ok None → is_lost driver.new ≡ true }
    ensures put { IfOk result (λ found. (told : List Input) × ArePut puttings.now told
        (talk_of R.remaining W.contents driver.old) (talk_of R.remaining W.contents driver.new)
        × (found ≡ found_by puttings.now told)) }
    ensures failed { IfErr result (λ fault. fault_of driver.new ≡ Some fault) }
{
    match puttings {
        [] => Ok(Some(false)),
        [putting, more @ ..] => match driver.ask(putting.priority, putting.frame, putting.half)? {
            Some(heard) => {
                let later = put_all(driver, more)?;
                Ok(joined_yes(is_yes(putting.asks, heard), later))
            }
            None => Ok(None),
        },
    }
}

/// Puts frames until each was heard, eight times in a row at most. Whether one of them was heard to find gear.
fn put_to_the_end<R: Read, W: Write>(
    driver: &mut DriverLink<R, W>,
    puttings: &[Putting],
) -> Result<bool, CommissionFault>
    ensures answered { IfOk result (λ found. AreLeftOver puttings.now found
        (talk_of R.remaining W.contents driver.old) (talk_of R.remaining W.contents driver.new)) }
    ensures lost { result ≡ Err CommissionFault.QuestionLost → AreLostSo puttings.now
        (talk_of R.remaining W.contents driver.old) (talk_of R.remaining W.contents driver.new) }
    ensures failed { IfErr result (λ reason. IsCut reason (talk_of R.remaining W.contents driver.new)) }
{
    for _ in 0..LOST {
        match put_all(driver, puttings) {
            Ok(Some(found)) => return Ok(found),
            Ok(None) => {}
            Err(fault) => return Err(CommissionFault::Driver(fault)),
        }
    }
    Err(CommissionFault::QuestionLost)
}

/// Whether gear are there that have no short address: they are initialised, asked three times, and disabled again.
/// If one of these frames is lost all begins again, eight times in a row at most. No gear draws a random address, is
/// given a short one, or is withdrawn.
pub fn has_unaddressed<R: Read, W: Write>(
    driver: &mut DriverLink<R, W>,
) -> Result<bool, CommissionFault>
    ensures answered { IfOk result (λ found. AreLeftOver asking found
        (talk_of R.remaining W.contents driver.old) (talk_of R.remaining W.contents driver.new)) }
    ensures lost { result ≡ Err CommissionFault.QuestionLost → AreLostSo asking
        (talk_of R.remaining W.contents driver.old) (talk_of R.remaining W.contents driver.new) }
    ensures failed { IfErr result (λ reason. IsCut reason (talk_of R.remaining W.contents driver.new)) }
{
    put_to_the_end(driver, &asking())
}

/// Whether gear without short address are there that have another random address than this one: they are asked as by
/// `has_unaddressed`, once those with this one are withdrawn.
pub(crate) fn has_others<R: Read, W: Write>(
    driver: &mut DriverLink<R, W>,
    random: Random24,
) -> Result<bool, CommissionFault>
    ensures answered { IfOk result (λ found. AreLeftOver (asking_beside random) found
        (talk_of R.remaining W.contents driver.old) (talk_of R.remaining W.contents driver.new)) }
    ensures lost { result ≡ Err CommissionFault.QuestionLost → AreLostSo (asking_beside random)
        (talk_of R.remaining W.contents driver.old) (talk_of R.remaining W.contents driver.new) }
    ensures failed { IfErr result (λ reason. IsCut reason (talk_of R.remaining W.contents driver.new)) }
{
    put_to_the_end(driver, &asking_beside(random))
}

/// Whether a gear with this random address has this short address: the gear with the short address are initialised, the
/// one is asked twice, and they are disabled again. Only exactly its answer counts. If one of these frames is lost all
/// begins again, eight times in a row at most. No gear changes an address.
pub fn has_under<R: Read, W: Write>(
    driver: &mut DriverLink<R, W>,
    short: Short,
    random: Random24,
) -> Result<bool, CommissionFault>
    ensures answered { IfOk result (λ found. AreLeftOver (asking_under short random) found
        (talk_of R.remaining W.contents driver.old) (talk_of R.remaining W.contents driver.new)) }
    ensures lost { result ≡ Err CommissionFault.QuestionLost → AreLostSo (asking_under short random)
        (talk_of R.remaining W.contents driver.old) (talk_of R.remaining W.contents driver.new) }
    ensures failed { IfErr result (λ reason. IsCut reason (talk_of R.remaining W.contents driver.new)) }
{
    put_to_the_end(driver, &asking_under(short, random))
}
