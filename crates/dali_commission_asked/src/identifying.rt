//! `identify`: a gear goes bright and dark.

ghost use Rattle.std.specs.Prelude.{◌≡◌, ◌⊎◌, true, false, not, [], IfOk, IfErr, OnOk};
ghost use Rattle.dali_commissioning.specs.declared.census.Reply.{Reply};
ghost use Rattle.dali_commissioning.specs.Census.{IsAnswered, is_silent};
ghost use Rattle.dali_commissioning.specs.Drivers.{talk_of, is_lost, lines_of};
ghost use Rattle.dali_commission_said.specs.declared.failure.Failure.TheVariants.{GaveUp};
ghost use Rattle.dali_commission_said.specs.Reports.{no_report};
ghost use Rattle.dali_commission_asked.specs.Came.{IsLit, IsLitBy, IsLitOnce, HasBlinked, IsCutAs, IsNotThere};
ghost use Rattle.dali_commission_asked.specs.Came.{IsShowing};

use dali_commission_said::{Came, Failure, Report, Voice, failure_of};
use dali_commissioning::{CommissionFault, DriverLink, Reply, ask, light, light_at_last};
use dali_frame::Short;
use std::io::{Read, Write};
use std::thread;
use std::time::{Clock, Duration};

/// How often a gear goes bright and dark, for how many milliseconds, and how often in a row a frame is tried.
const BLINKS: [u8; 5] = [1, 2, 3, 4, 5];

const STAYS: u64 = 1_000;

const TRIES: [u8; 8] = [1, 2, 3, 4, 5, 6, 7, 8];

/// Direct arc power: the most, and off.
const BRIGHT: u8 = 254;

const DARK: u8 = 0;

/// Sets the light of a gear, if the frame is sent.
#[tactic(auto, unfolding(crate::specs::Came::IsLitOnce))]
fn lit_once<R: Read, W: Write>(
    driver: &mut DriverLink<R, W>,
    short: Short,
    level: u8,
) -> Result<bool, Failure>
    ensures lit { IfOk result (λ sent. IsLitOnce short level sent (talk_of R.remaining W.contents driver.old)
        (talk_of R.remaining W.contents driver.new)) }
    ensures lost { IfOk result (λ sent. is_lost driver.new ≡ not sent) }
    ensures failed { IfErr result (λ failure. IsCutAs failure (lines_of driver.new)
        (talk_of R.remaining W.contents driver.new)) }
{
    match light(driver, short, level) {
        Ok(is_sent) => Ok(is_sent),
        Err(fault) => Err(failure_of(CommissionFault::Driver(fault), driver.lines())),
    }
}

/// Sets it as soon as a frame is sent.
fn lit_by<R: Read, W: Write>(
    driver: &mut DriverLink<R, W>,
    short: Short,
    level: u8,
    tries: &[u8],
) -> Result<(), Failure>
    ensures lit { OnOk result (IsLitBy short level tries.now (talk_of R.remaining W.contents driver.old)
        (talk_of R.remaining W.contents driver.new)) }
    ensures failed { IfErr result (λ failure. ((tries.now ≡ []) × (failure ≡ GaveUp) × (driver.new ≡ driver.old))
        ⊎ IsCutAs failure (lines_of driver.new) (talk_of R.remaining W.contents driver.new)) }
{
    let [_, more @ ..] = tries else {
        return Err(Failure::GaveUp);
    };
    if lit_once(driver, short, level)? {
        return Ok(());
    }
    lit_by(driver, short, level, more)
}

/// The same, by at most eight frames.
#[tactic(auto, unfolding(crate::specs::Came::IsLit))]
fn lit<R: Read, W: Write>(
    driver: &mut DriverLink<R, W>,
    short: Short,
    level: u8,
) -> Result<(), Failure>
    ensures lit { OnOk result (IsLit short level (talk_of R.remaining W.contents driver.old)
        (talk_of R.remaining W.contents driver.new)) }
    ensures failed { IfErr result (λ failure. IsCutAs failure (lines_of driver.new)
        (talk_of R.remaining W.contents driver.new)) }
{
    lit_by(driver, short, level, &TRIES)
}

/// Makes the gear go bright and dark so often, and bright in the end.
fn blinks<S: Clock, R: Read, W: Write>(
    system: &S,
    driver: &mut DriverLink<R, W>,
    short: Short,
    times: &[u8],
) -> Result<(), Failure>
    ensures shown { OnOk result (HasBlinked short times.now (talk_of R.remaining W.contents driver.old)
        (talk_of R.remaining W.contents driver.new)) }
    ensures failed { IfErr result (λ failure. IsCutAs failure (lines_of driver.new)
        (talk_of R.remaining W.contents driver.new)) }
{
    lit(driver, short, BRIGHT)?;
    let [_, more @ ..] = times else {
        return Ok(());
    };
    thread::sleep(system, Duration::from_millis(STAYS));
    lit(driver, short, DARK)?;
    thread::sleep(system, Duration::from_millis(STAYS));
    blinks(system, driver, short, more)
}

/// Whether no gear answered.
pub fn is_silent(reply: Reply) -> bool
    ensures { result ≡ is_silent reply }
{
    match reply {
        Reply::Silence => true,
        Reply::Noise | Reply::Unclear | Reply::Random(_) | Reply::Several => false,
    }
}

/// A gear answers to a short address; or why the gear is not shown.
fn is_there<R: Read, W: Write>(driver: &mut DriverLink<R, W>, short: Short) -> Result<(), Failure>
    ensures heard { OnOk result ((heard : Reply) × IsAnswered short heard
        (talk_of R.remaining W.contents driver.old) (talk_of R.remaining W.contents driver.new)
        × (is_silent heard ≡ false)) }
    ensures failed { IfErr result (λ failure. IsNotThere short failure (lines_of driver.new)
        (talk_of R.remaining W.contents driver.old) (talk_of R.remaining W.contents driver.new)) }
{
    match ask(driver, short) {
        Ok(reply) => {
            if is_silent(reply) {
                Err(Failure::NobodyThere(short))
            } else {
                Ok(())
            }
        }
        Err(fault) => Err(failure_of(fault, driver.lines())),
    }
}

/// Makes it so if a gear answers. If that ends early, the last line is the one that makes it bright: the
/// launcher passes it on when it was interrupted.
fn shows<S: Clock, R: Read, W: Write>(
    system: &S,
    driver: &mut DriverLink<R, W>,
    short: Short,
) -> Result<(), Failure>
    ensures { IsShowing short result (lines_of driver.new) (talk_of R.remaining W.contents driver.old)
        (talk_of R.remaining W.contents driver.new) }
{
    is_there(driver, short)?;
    let shown = blinks(system, driver, short, &BLINKS);
    if shown.is_err() {
        let _ = light_at_last(driver, short, BRIGHT);
    }
    shown
}

/// Makes the gear with a short address go bright and dark, and bright in the end.
pub fn identify<S: Voice + Clock, R: Read, W: Write>(
    system: &S,
    driver: &mut DriverLink<R, W>,
    short: Short,
    report: &mut Report,
) -> Result<(), Failure>
    ensures shows { IsShowing short result (lines_of driver.new) (talk_of R.remaining W.contents driver.old)
        (talk_of R.remaining W.contents driver.new) }
    ensures report { report.new ≡ record no_report { frames = lines_of driver.new } }
{
    let ended = shows(system, driver, short);
    Came::bare(ended).told(system, driver, report)
}
