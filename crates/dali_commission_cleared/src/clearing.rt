//! `clear`: all gear lose their short addresses.

ghost use Rattle.std.specs.Prelude.{◌≡◌, ◌≤◌, false, [], None, IfOk, IfErr, OnOk, length, not};
ghost use Rattle.std.specs.List.{list_any};
ghost use Rattle.dali_script.specs.Records.{without_records};
ghost use Rattle.dali_commissioning.specs.Census.{is_silent};
ghost use Rattle.dali_commissioning.specs.Drivers.{talk_of, lines_of, IsCut};
ghost use Rattle.dali_commissioning.specs.Places.{places};
ghost use Rattle.dali_commission_cleared.specs.Erasing.{erasing_next};
ghost use Rattle.dali_commission_cleared.specs.Clearing.{HaveErased, IsRound, AreCleared, IsFollowed, is_any};
ghost use Rattle.dali_commission_cleared.specs.Clearing.{clear_reported, ClearsTo, HasCleared, all_shorts, IsEraseCut};
ghost use Rattle.dali_commission_cleared.specs.Clearing.{IsRoundCut, AreRoundsCut, IsClearCut, cleared_as};

use crate::aside::{Aside, put_aside, put_new_aside};
use crate::eraser::Eraser;
use arrayvec::ArrayVec;
use dali_commission_asked::is_silent;
use dali_commission_said::{
    Came, Failure, Manner, Progress, Report, Said, Voice, Which, failure_of, push_places,
};
use dali_commission_stores::Stores;
use dali_commissioning::{
    CommissionFault, DriverLink, Reply, has_unaddressed, places, take_census,
};
use dali_script::{Block, Kept};
use std::io::{Read, Write};

/// How many frames a round may put: some 8,000 take 64 gear their short addresses.
const MOST_FRAMES: u32 = 40_000;

/// The rounds, as long as gear answer at short addresses behind each.
const ROUNDS: [u8; 4] = [1, 2, 3, 4];

/// Puts what the machine says, until it has ended.
#[tactic(auto, using(crate::proofs::Frames::none_erased))]
fn erase<R: Read, W: Write>(
    driver: &mut DriverLink<R, W>,
    eraser: &mut Eraser,
) -> Result<(), CommissionFault>
    ensures put { OnOk result (HaveErased eraser.old eraser.new
        (talk_of R.remaining W.contents driver.old) (talk_of R.remaining W.contents driver.new)) }
    ensures over { OnOk result (erasing_next eraser.new ≡ None) }
    ensures failed { IfErr result (λ reason. IsEraseCut reason eraser.old
        (talk_of R.remaining W.contents driver.old) (talk_of R.remaining W.contents driver.new)) }
{
    for _ in 0..MOST_FRAMES {
        let Some(put) = eraser.put() else {
            return Ok(());
        };
        match driver.exchange(put.priority, put.frame, put.half) {
            Ok(told) => eraser.told(told),
            Err(fault) => return Err(CommissionFault::Driver(fault)),
        }
    }
    Err(CommissionFault::StepsSpent)
}

/// A controller with all addresses, and no records.
fn no_records() -> Kept
    ensures { result ≡ without_records all_shorts }
{
    Kept::new(Block::ALL)
}

/// Takes the short addresses of all gear away, and asks each one then. What was heard there.
fn round<R: Read, W: Write>(
    driver: &mut DriverLink<R, W>,
) -> Result<ArrayVec<Reply, 64>, CommissionFault>
    ensures round { IfOk result (λ replies. IsRound replies.items
        (talk_of R.remaining W.contents driver.old) (talk_of R.remaining W.contents driver.new)) }
    ensures few { IfOk result (λ replies. length replies.items ≤ 64) }
    ensures failed { IfErr result (λ reason. IsRoundCut reason
        (talk_of R.remaining W.contents driver.old) (talk_of R.remaining W.contents driver.new)) }
{
    let mut eraser = Eraser::new();
    erase(driver, &mut eraser)?;
    if eraser.is_lost() {
        return Err(CommissionFault::QuestionLost);
    }
    take_census(driver, &no_records(), &[])
}

/// Whether gear answered at a short address.
fn is_any(replies: &[Reply]) -> bool
    ensures { result ≡ list_any (λ reply. not (is_silent reply)) replies.now }
{
    replies.iter().any(|reply| !is_silent(*reply))
}

/// Goes round after round until no gear answers at a short address. What was heard behind the last one.
fn clear_all<S: Voice, R: Read, W: Write>(
    driver: &mut DriverLink<R, W>,
    progress: &Progress<'_, S>,
    rounds: &[u8],
    last: ArrayVec<Reply, 64>,
) -> Result<ArrayVec<Reply, 64>, CommissionFault>
    requires { length last.items ≤ 64 }
    ensures cleared { IfOk result (λ replies. AreCleared rounds.now last.items replies.items
        (talk_of R.remaining W.contents driver.old) (talk_of R.remaining W.contents driver.new)) }
    ensures few { IfOk result (λ replies. length replies.items ≤ 64) }
    ensures failed { IfErr result (λ reason. AreRoundsCut rounds.now reason
        (talk_of R.remaining W.contents driver.old) (talk_of R.remaining W.contents driver.new)) }
{
    let [number, more @ ..] = rounds else {
        return Ok(last);
    };
    progress.begin(&Said::Clears(*number));
    let replies = round(driver)?;
    if is_any(&replies) {
        clear_all(driver, progress, more, replies)
    } else {
        Ok(replies)
    }
}

/// If no gear answers at a short address: whether any has none, so that the bus has not failed.
fn is_any_there<R: Read, W: Write>(
    driver: &mut DriverLink<R, W>,
    replies: &[Reply],
) -> Result<bool, CommissionFault>
    ensures asked { IfOk result (λ found. IsFollowed replies.now found
        (talk_of R.remaining W.contents driver.old) (talk_of R.remaining W.contents driver.new)) }
    ensures failed { IfErr result (λ reason. (is_any replies.now ≡ false)
        × IsCut reason (talk_of R.remaining W.contents driver.new)) }
{
    if is_any(replies) {
        Ok(true)
    } else {
        has_unaddressed(driver)
    }
}

/// How a clear ends.
fn cleared_as(replies: &[Reply], is_there: bool) -> Result<(), Failure>
    ensures { result ≡ cleared_as replies.now is_there }
{
    if is_any(replies) {
        Err(Failure::NotCleared)
    } else if is_there {
        Ok(())
    } else {
        Err(Failure::NobodyAnswered)
    }
}

/// What a clear comes to, by what was heard of each short address at last, and whether gear are there.
fn came_of(replies: &[Reply], is_there: bool) -> Came
    requires { length replies.now ≤ 64 }
    ensures ended { result.ended ≡ cleared_as replies.now is_there }
    ensures report { result.report ≡ clear_reported (places (without_records all_shorts) [] replies.now)
        (cleared_as replies.now is_there) }
{
    let ended = cleared_as(replies, is_there);
    let places = places(&no_records(), &[], replies);
    let mut said = ArrayVec::new();
    push_places(&mut said, Which::All, 0, &places);
    if ended.is_ok() {
        said.push(Said::Cleared);
    }
    Came {
        report: Report {
            said,
            places,
            ..Report::new()
        },
        ended,
    }
}

/// Takes the short addresses of all gear away. The files of records were put aside before.
fn came_to<S: Voice, R: Read, W: Write>(
    driver: &mut DriverLink<R, W>,
    progress: &Progress<'_, S>,
    _aside: &Aside,
) -> Result<Came, CommissionFault>
    ensures clears { IfOk result (λ came. ClearsTo came.report came.ended
        (talk_of R.remaining W.contents driver.old) (talk_of R.remaining W.contents driver.new)) }
    ensures failed { IfErr result (λ reason. IsClearCut reason
        (talk_of R.remaining W.contents driver.old) (talk_of R.remaining W.contents driver.new)) }
{
    let replies = clear_all(driver, progress, &ROUNDS, ArrayVec::new())?;
    let is_there = is_any_there(driver, &replies)?;
    Ok(came_of(&replies, is_there))
}

/// Puts the files of these records aside that are not empty, and what a stopped replacement has left beside them; and
/// takes the short addresses of all gear away.
pub fn clears<S, F, R, W>(
    system: &S,
    stores: &mut F,
    driver: &mut DriverLink<R, W>,
    manner: Manner,
    records: &[String],
    report: &mut Report,
) -> Result<(), Failure>
where
    S: Voice + AllocGlobal,
    F: Stores,
    R: Read,
    W: Write,
    ensures { HasCleared F.made F.saw (S.told system.now) records.now stores.old stores.new
        (talk_of R.remaining W.contents driver.old) (talk_of R.remaining W.contents driver.new) (lines_of driver.new)
        report.old report.new result }
{
    let aside = put_aside(system, stores, records)?;
    put_new_aside(system, stores, records)?;
    let progress = Progress::new(system, manner, 0);
    let came = match came_to(driver, &progress, &aside) {
        Ok(came) => came,
        Err(fault) => Came::bare(Err(failure_of(fault, driver.lines()))),
    };
    came.told(system, driver, report)
}
