//! What is asked at the end of a task: whether any gear answers, since silence looks like gear that are not there if
//! the bus fails on the way; and again the short addresses that a survey left alone.

ghost use Rattle.std.specs.Prelude.{◌≡◌, ◌++◌, IfOk, IfErr};
ghost use Rattle.dali_commissioning.specs.Drivers.{talk_of, has_heard, IsCut};
ghost use Rattle.dali_script.specs.Records.{addresses};
ghost use Rattle.dali_commission_asked.specs.Ending.{AnswersAt, IsAnyAt, HasAsked, all_if, with_reply, IsAskedAgain};
ghost use Rattle.dali_commission_asked.specs.Ending.{AreAskedAgain, HasAskedAtLast, is_asked, OrUnaddressed, ended_by};
ghost use Rattle.dali_commission_asked.specs.Ending.{pass_at_last};

use crate::identifying::is_silent;
use crate::sharing::{Left, is_shared};
use arrayvec::ArrayVec;
use dali_commission_said::heard_of;
use dali_commissioning::{
    CommissionFault, DriverLink, Ended, PassEnd, Reply, ask, ask_until_clear, has_unaddressed,
};
use dali_controller::Shorts;
use dali_frame::Short;
use dali_script::{End, Kept, Pair};
use std::io::{Read, Write};

/// Whether a gear answers at the short address of this number.
fn answers<R: Read, W: Write>(
    driver: &mut DriverLink<R, W>,
    number: u8,
) -> Result<bool, CommissionFault>
    ensures asked { IfOk result (λ found. AnswersAt number found
        (talk_of R.remaining W.contents driver.old) (talk_of R.remaining W.contents driver.new)) }
    ensures failed { IfErr result (λ reason. IsCut reason (talk_of R.remaining W.contents driver.new)) }
{
    let Some(short) = Short::of(number) else {
        return Ok(false);
    };
    let reply = ask(driver, short)?;
    Ok(!is_silent(reply))
}

/// Whether a gear answers at one of the short addresses of these pairs, or of these numbers: they are asked one after
/// the other, until one does.
fn is_any_at<R: Read, W: Write>(
    driver: &mut DriverLink<R, W>,
    pairs: &[Pair],
    numbers: &[u8],
) -> Result<bool, CommissionFault>
    ensures asked { IfOk result (λ found. IsAnyAt (addresses pairs.now ++ numbers.now) found
        (talk_of R.remaining W.contents driver.old) (talk_of R.remaining W.contents driver.new)) }
    ensures failed { IfErr result (λ reason. IsCut reason (talk_of R.remaining W.contents driver.new)) }
{
    match (pairs, numbers) {
        ([], []) => Ok(false),
        ([pair, more @ ..], _) => {
            if answers(driver, pair.address())? {
                Ok(true)
            } else {
                is_any_at(driver, more, numbers)
            }
        }
        ([], [number, more @ ..]) => {
            if answers(driver, *number)? {
                Ok(true)
            } else {
                is_any_at(driver, pairs, more)
            }
        }
    }
}

/// All short addresses, if they are asked.
fn all_if(are_asked: bool) -> ArrayVec<u8, 64>
    ensures { result.items ≡ all_if are_asked }
{
    if are_asked {
        heard_of(Shorts { bits: u64::MAX })
    } else {
        ArrayVec::new()
    }
}

/// Whether it is asked at last if any gear answers: if all gear seem to be found, or searches led to none.
fn is_asked(pass: &PassEnd) -> bool
    ensures { result ≡ is_asked pass.now }
{
    match pass.ended {
        Ended::Done(End::AllFound) => true,
        Ended::Done(End::GaveUp) => pass.tries < 8,
        Ended::Done(End::BlockFull) | Ended::Halted(_) => false,
    }
}

/// Whether gear without short address are there, if searches led to none and no other answers.
fn or_unaddressed<R: Read, W: Write>(
    driver: &mut DriverLink<R, W>,
    ended: Ended,
    is_one: bool,
) -> Result<bool, CommissionFault>
    ensures asked { IfOk result (λ found. OrUnaddressed ended is_one found
        (talk_of R.remaining W.contents driver.old) (talk_of R.remaining W.contents driver.new)) }
    ensures failed { IfErr result (λ reason. IsCut reason (talk_of R.remaining W.contents driver.new)) }
{
    match ended {
        Ended::Done(End::GaveUp) if !is_one => has_unaddressed(driver),
        // It did not search in vain, or one answers.
        _ => Ok(is_one),
    }
}

/// Whether any gear answers now that the last machine has ended so. If that is asked, those of the table are asked
/// first, which a survey does not ask; and then all, if any was heard, which need not be in this table.
fn is_any_there<R: Read, W: Write>(
    driver: &mut DriverLink<R, W>,
    pass: &PassEnd,
    kept: &Kept,
) -> Result<bool, CommissionFault>
    ensures asked { IfOk result (λ found. HasAsked pass.now kept.now.enrolled (has_heard driver.old) found
        (talk_of R.remaining W.contents driver.old) (talk_of R.remaining W.contents driver.new)) }
    ensures failed { IfErr result (λ reason. IsCut reason (talk_of R.remaining W.contents driver.new)) }
{
    if !is_asked(pass) {
        return Ok(false);
    }
    let all = all_if(driver.has_heard());
    let is_one = is_any_at(driver, kept.enrolled(), &all)?;
    or_unaddressed(driver, pass.ended, is_one)
}

impl Left {
    /// With what was heard of one more short address.
    fn with(&self, short: Short, reply: Reply) -> Left
        ensures { result ≡ with_reply self.now short reply }
    {
        Left {
            heard: if is_silent(reply) {
                self.heard
            } else {
                self.heard.with(short)
            },
            shared: self.shared || is_shared(reply),
        }
    }
}

fn ask_one_again<R: Read, W: Write>(
    driver: &mut DriverLink<R, W>,
    number: u8,
    before: Left,
) -> Result<Left, CommissionFault>
    ensures asked { IfOk result (λ left. IsAskedAgain number before left
        (talk_of R.remaining W.contents driver.old) (talk_of R.remaining W.contents driver.new)) }
    ensures failed { IfErr result (λ reason. IsCut reason (talk_of R.remaining W.contents driver.new)) }
{
    let Some(short) = Short::of(number) else {
        return Ok(before);
    };
    match ask_until_clear(driver, short) {
        Ok(reply) => Ok(before.with(short, reply)),
        Err(fault) => Err(fault),
    }
}

/// Asks each of these short addresses again.
fn ask_again<R: Read, W: Write>(
    driver: &mut DriverLink<R, W>,
    numbers: &[u8],
    before: Left,
) -> Result<Left, CommissionFault>
    ensures asked { IfOk result (λ left. AreAskedAgain numbers.now before left
        (talk_of R.remaining W.contents driver.old) (talk_of R.remaining W.contents driver.new)) }
    ensures failed { IfErr result (λ reason. IsCut reason (talk_of R.remaining W.contents driver.new)) }
{
    let [number, more @ ..] = numbers else {
        return Ok(before);
    };
    let left = ask_one_again(driver, *number, before)?;
    ask_again(driver, more, left)
}

/// What was heard at last.
#[derive(Clone, Copy)]
pub struct AtLast {
    /// Whether any gear answers.
    pub is_there: bool,
    /// What the last survey left alone.
    pub left: Left,
}

/// How the last machine ended: if no gear answers any more, it has not given up beside any.
fn ended_by(ended: Ended, is_asked: bool, is_there: bool) -> Ended
    ensures { result ≡ ended_by ended is_asked is_there }
{
    match ended {
        Ended::Done(End::GaveUp) if is_asked && !is_there => Ended::Done(End::AllFound),
        // It ended otherwise, or beside gear.
        _ => ended,
    }
}

impl AtLast {
    /// What the last machine came to, with that.
    pub fn pass(&self, pass: &PassEnd) -> PassEnd
        ensures { result ≡ pass_at_last pass.now self.now }
    {
        PassEnd {
            ended: ended_by(pass.ended, is_asked(pass), self.is_there),
            heard: self.left.heard,
            ..*pass
        }
    }
}

/// Asks what is to be asked once the last machine has ended so.
pub fn ask_at_last<R: Read, W: Write>(
    driver: &mut DriverLink<R, W>,
    pass: &PassEnd,
    kept: &Kept,
) -> Result<AtLast, CommissionFault>
    ensures asked { IfOk result (λ last. HasAskedAtLast pass.now kept.now.enrolled last
        (talk_of R.remaining W.contents driver.old) (talk_of R.remaining W.contents driver.new)) }
    ensures failed { IfErr result (λ reason. IsCut reason (talk_of R.remaining W.contents driver.new)) }
{
    let is_there = is_any_there(driver, pass, kept)?;
    if !is_there {
        let left = Left {
            heard: pass.heard,
            shared: false,
        };
        return Ok(AtLast { is_there, left });
    }
    let none = Left {
        heard: Shorts::NONE,
        shared: false,
    };
    let left = ask_again(driver, &heard_of(pass.heard), none)?;
    Ok(AtLast { is_there, left })
}
