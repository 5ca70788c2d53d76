//! The census of the short addresses: which gear answer to addresses that no record names, before any is given.

ghost use Rattle.std.specs.Prelude.{◌≡◌, ◌<◌, ◌≤◌, ◌==◌, false, true, length, List, Some, None, Ok, Err, IfOk, IfErr};
ghost use Rattle.std.specs.List.{list_any};
ghost use Rattle.dali_script.specs.declared.orders.Input.{Input};
ghost use Rattle.dali_special.specs.declared.command.Command.TheVariants.{RandomByte};
ghost use Rattle.dali_special.specs.Command.{frame_of};
ghost use Rattle.dali_script.specs.declared.sending.Half.TheVariants as half;
ghost use Rattle.dali_commissioning.specs.Drivers.{talk_of, fault_of, is_lost, IsCut};
ghost use Rattle.dali_commissioning.specs.Census.{IsPut, answer_told, IsAsked, reply_of, answers_told};
ghost use Rattle.dali_commissioning.specs.Census.{is_byte, is_silence, without_number, joined, lost_after};
ghost use Rattle.dali_commissioning.specs.Census.{IsHeard, IsAnswered, IsGivenUpOf, IsGivenUp, is_unclear};
ghost use Rattle.dali_commissioning.specs.Census.{IsCleared, IsGivenUpUnclear, is_named, IsCounted, AreCounted, IsLost};
ghost use Rattle.dali_commissioning.specs.Census.{is_known, is_silent, is_addressed};
ghost use Rattle.dali_script.specs.Stages.{in_block};

use crate::driver::{DriverFault, DriverLink};
use crate::fault::CommissionFault;
use crate::hearing::Hearing;
use arrayvec::ArrayVec;
use dali_frame::{Answer, Priority, Random24, Short};
use dali_script::{Block, Half, Input, Kept, Pair};
use dali_special::{Command, Part};
use std::io::{Read, Write};

/// How often a short address is asked for its random address.
const QUESTIONS: u8 = 3;

/// How often more if that leaves it unclear.
const MORE_QUESTIONS: u8 = 9;

/// How often in a row a question may be lost.
const LOST: u8 = 8;

/// What was heard of a short address.
#[derive(Clone, Copy, Default, PartialEq, Eq)]
pub enum Reply {
    /// Nothing was heard.
    #[default]
    Silence,
    /// Something was heard each time, and never a byte: several gear answer together, or the bus is disturbed.
    Noise,
    /// Some bytes were heard that spell no random address: a gear answers, or several together.
    Unclear,
    /// This random address was heard, and no other.
    Random(Random24),
    /// Two different random addresses were heard: several gear have the short address.
    Several,
}

fn is_byte(answer: Answer) -> bool
    ensures { result ≡ is_byte answer }
{
    match answer {
        Answer::Byte(_) => true,
        Answer::Silence | Answer::Damaged => false,
    }
}

fn is_silence(answer: Answer) -> bool
    ensures { result ≡ is_silence answer }
{
    match answer {
        Answer::Silence => true,
        Answer::Byte(_) | Answer::Damaged => false,
    }
}

/// What the three queries of a question were answered: of the high, the middle and the low byte.
#[derive(Clone, Copy)]
pub struct Answers {
    pub high: Answer,
    pub middle: Answer,
    pub low: Answer,
}

/// What three answers tell that are not all bytes.
fn without_number(high: Answer, middle: Answer, low: Answer) -> Reply
    ensures { result ≡ without_number high middle low }
{
    if is_byte(high) || is_byte(middle) || is_byte(low) {
        Reply::Unclear
    } else if is_silence(high) && is_silence(middle) && is_silence(low) {
        Reply::Silence
    } else {
        Reply::Noise
    }
}

/// What the answers to one question spell: of the high, the middle and the low byte.
pub fn reply_of(high: Answer, middle: Answer, low: Answer) -> Reply
    ensures { result ≡ reply_of high middle low }
{
    match (high, middle, low) {
        (Answer::Byte(high), Answer::Byte(middle), Answer::Byte(low)) => {
            Reply::Random(Random24::from_bytes(high, middle, low))
        }
        _ => without_number(high, middle, low),
    }
}

/// What two questions tell together.
pub(crate) fn joined(one: Reply, other: Reply) -> Reply
    ensures { result ≡ joined one other }
{
    match one {
        Reply::Noise => other,
        Reply::Silence => match other {
            Reply::Noise => Reply::Silence,
            Reply::Silence | Reply::Unclear | Reply::Random(_) | Reply::Several => other,
        },
        Reply::Unclear => match other {
            Reply::Noise | Reply::Silence => Reply::Unclear,
            Reply::Unclear | Reply::Random(_) | Reply::Several => other,
        },
        Reply::Random(random) => match other {
            Reply::Noise | Reply::Silence | Reply::Unclear => Reply::Random(random),
            Reply::Random(number) => {
                if random == number {
                    Reply::Random(random)
                } else {
                    Reply::Several
                }
            }
            Reply::Several => Reply::Several,
        },
        Reply::Several => Reply::Several,
    }
}

/// How many questions in a row were lost, with one more.
fn lost_after(lost: u8, told: &Option<Answers>) -> u8
    requires { lost < 255 }
    ensures { result ≡ lost_after lost told.now }
{
    match *told {
        Some(_) => 0,
        None => lost + 1,
    }
}

/// Asks for one byte of a random address. None if the frame was lost.
fn byte<R: Read, W: Write>(
    driver: &mut DriverLink<R, W>,
    priority: Priority,
    short: Short,
    part: Part,
) -> Result<Option<Answer>, DriverFault>
    ensures lost { result ≡ Ok None → is_lost driver.new ≡ true }
    ensures put { IfOk result (λ heard. (told : Input)
        × IsPut priority (frame_of (RandomByte short part)) half.Whole told
        (talk_of R.remaining W.contents driver.old) (talk_of R.remaining W.contents driver.new)
        × (heard ≡ answer_told told)) }
    ensures failed { IfErr result (λ fault. fault_of driver.new ≡ Some fault) }
{
    let frame = Command::RandomByte(short, part).write();
    driver.ask(priority, frame, Half::Whole)
}

/// Asks the gear with a short address for its random address. None if one of the three frames was lost.
fn question<R: Read, W: Write>(
    driver: &mut DriverLink<R, W>,
    short: Short,
) -> Result<Option<Answers>, DriverFault>
    ensures lost { result ≡ Ok None → is_lost driver.new ≡ true }
    ensures asked { IfOk result (λ answers. (told : List Input) × IsAsked short told
        (talk_of R.remaining W.contents driver.old) (talk_of R.remaining W.contents driver.new)
        × (answers ≡ answers_told told)) }
    ensures failed { IfErr result (λ fault. fault_of driver.new ≡ Some fault) }
{
    let Some(high) = byte(driver, Priority::FIRST, short, Part::High)? else {
        return Ok(None);
    };
    let Some(middle) = byte(driver, Priority::LATER, short, Part::Middle)? else {
        return Ok(None);
    };
    let Some(low) = byte(driver, Priority::LATER, short, Part::Low)? else {
        return Ok(None);
    };
    Ok(Some(Answers { high, middle, low }))
}

/// Asks the gear with a short address for its random address, until so many questions were answered whole.
fn hear<R: Read, W: Write>(
    driver: &mut DriverLink<R, W>,
    short: Short,
    wanted: u8,
) -> Result<Hearing, CommissionFault>
    requires some { 0 < wanted }
    requires few { wanted ≤ 9 }
    ensures heard { IfOk result (λ heard. IsHeard wanted short heard
        (talk_of R.remaining W.contents driver.old) (talk_of R.remaining W.contents driver.new)) }
    ensures lost { result ≡ Err CommissionFault.QuestionLost → IsGivenUpOf wanted short
        (talk_of R.remaining W.contents driver.old) (talk_of R.remaining W.contents driver.new) }
    ensures failed { IfErr result (λ reason. IsCut reason (talk_of R.remaining W.contents driver.new)) }
{
    let mut heard = Hearing::nothing();
    let mut lost = 0;
    for _ in 0..wanted * LOST {
        let told = match question(driver, short) {
            Ok(told) => told,
            Err(fault) => return Err(CommissionFault::Driver(fault)),
        };
        heard = heard.after(told);
        lost = lost_after(lost, &told);
        if heard.asked == wanted {
            return Ok(heard);
        }
        if lost == LOST {
            return Err(CommissionFault::QuestionLost);
        }
    }
    // Never so: at most seven questions are lost before each that is answered.
    Err(CommissionFault::QuestionLost)
}

/// Asks the gear with a short address for its random address, until three questions were answered.
pub fn ask<R: Read, W: Write>(
    driver: &mut DriverLink<R, W>,
    short: Short,
) -> Result<Reply, CommissionFault>
    ensures answered { IfOk result (λ reply. IsAnswered short reply
        (talk_of R.remaining W.contents driver.old) (talk_of R.remaining W.contents driver.new)) }
    ensures lost { result ≡ Err CommissionFault.QuestionLost → IsGivenUp short
        (talk_of R.remaining W.contents driver.old) (talk_of R.remaining W.contents driver.new) }
    ensures failed { IfErr result (λ reason. IsCut reason (talk_of R.remaining W.contents driver.new)) }
{
    let heard = hear(driver, short, QUESTIONS)?;
    Ok(heard.reply)
}

/// Whether something was heard that tells no number: several gear answer together, or the bus is disturbed.
pub fn is_unclear(reply: &Reply) -> bool
    ensures { result ≡ is_unclear reply.now }
{
    match *reply {
        Reply::Noise | Reply::Unclear => true,
        Reply::Silence | Reply::Random(_) | Reply::Several => false,
    }
}

/// Asks the gear with a short address for its random address, and nine times more if three questions leave it unclear
/// which gear are there. `Several` may then come without a number, since it was heard that gear answer together.
pub fn ask_until_clear<R: Read, W: Write>(
    driver: &mut DriverLink<R, W>,
    short: Short,
) -> Result<Reply, CommissionFault>
    ensures answered { IfOk result (λ reply. IsCleared short reply
        (talk_of R.remaining W.contents driver.old) (talk_of R.remaining W.contents driver.new)) }
    ensures lost { result ≡ Err CommissionFault.QuestionLost → IsGivenUpUnclear short
        (talk_of R.remaining W.contents driver.old) (talk_of R.remaining W.contents driver.new) }
    ensures failed { IfErr result (λ reason. IsCut reason (talk_of R.remaining W.contents driver.new)) }
{
    let reply = ask(driver, short)?;
    if is_unclear(&reply) {
        let heard = hear(driver, short, MORE_QUESTIONS)?;
        Ok(joined(reply, heard.judged()))
    } else {
        Ok(reply)
    }
}

fn has_address(pairs: &[Pair], short: Short) -> bool
    ensures { result ≡ list_any (λ p. p.0 == short) pairs.now }
{
    pairs.iter().any(|pair| pair.address() == short.number())
}

/// Whether a record names a short address.
fn is_named(kept: &Kept, short: Short) -> bool
    ensures { result ≡ is_named kept.now short }
{
    has_address(kept.reserved(), short) || has_address(kept.enrolled(), short)
}

fn is_in(block: Block, short: Short) -> bool
    ensures { result ≡ in_block block short }
{
    block.first <= short && short <= block.last
}

/// Whether a short address lies in one of some blocks.
pub fn has_block(blocks: &[Block], short: Short) -> bool
    ensures { result ≡ list_any (λ b. in_block b short) blocks.now }
{
    blocks.iter().any(|block| is_in(*block, short))
}

/// Whether a short address is accounted for: a record names it, or it lies in a block of another controller.
pub fn is_known(kept: &Kept, others: &[Block], short: Short) -> bool
    ensures { result ≡ is_known kept.now others.now short }
{
    is_named(kept, short) || has_block(others, short)
}

/// What is heard of a short address, if it is not accounted for.
fn count<R: Read, W: Write>(
    driver: &mut DriverLink<R, W>,
    kept: &Kept,
    others: &[Block],
    short: Short,
) -> Result<Reply, CommissionFault>
    ensures counted { IfOk result (λ reply. IsCounted kept.now others.now short reply
        (talk_of R.remaining W.contents driver.old) (talk_of R.remaining W.contents driver.new)) }
    ensures lost { result ≡ Err CommissionFault.QuestionLost → (is_known kept.now others.now short ≡ false)
        × IsGivenUpUnclear short (talk_of R.remaining W.contents driver.old)
        (talk_of R.remaining W.contents driver.new) }
    ensures failed { IfErr result (λ reason. IsCut reason (talk_of R.remaining W.contents driver.new)) }
{
    if is_known(kept, others, short) {
        Ok(Reply::Silence)
    } else {
        ask_until_clear(driver, short)
    }
}

/// What is heard of each short address, from address 0 on. Those that the records name and those in the blocks of other
/// controllers are passed over, as silent.
///
/// Each is asked for its random address three times, by the three queries of one transaction, and nine times more if
/// it is unclear. Nothing is given.
#[tactic(auto, using(crate::proofs::Asked::counted_more))]
pub fn take_census<R: Read, W: Write>(
    driver: &mut DriverLink<R, W>,
    kept: &Kept,
    others: &[Block],
) -> Result<ArrayVec<Reply, 64>, CommissionFault>
    ensures all { IfOk result (λ replies. length replies.items ≡ 64) }
    ensures counted { IfOk result (λ replies. AreCounted kept.now others.now 0 replies.items
        (talk_of R.remaining W.contents driver.old) (talk_of R.remaining W.contents driver.new)) }
    ensures lost { result ≡ Err CommissionFault.QuestionLost → IsLost kept.now others.now
        (talk_of R.remaining W.contents driver.old) (talk_of R.remaining W.contents driver.new) }
    ensures failed { IfErr result (λ reason. IsCut reason (talk_of R.remaining W.contents driver.new)) }
{
    let mut replies = ArrayVec::new();
    for number in 0..64u8 {
        let Some(short) = Short::of(number) else {
            // Each number of the loop is below 64.
            unreachable!();
        };
        replies.push(count(driver, kept, others, short)?);
    }
    Ok(replies)
}

pub(crate) fn is_silent(reply: Reply) -> bool
    ensures { result ≡ is_silent reply }
{
    match reply {
        Reply::Silence => true,
        Reply::Noise | Reply::Unclear | Reply::Random(_) | Reply::Several => false,
    }
}

/// Whether something was heard of a short address.
pub fn is_addressed(replies: &[Reply]) -> bool
    ensures { result ≡ is_addressed replies.now }
{
    replies.iter().any(|reply| !is_silent(*reply))
}
