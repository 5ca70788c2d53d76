//! Gear without short address: whether there is exactly one.

ghost use Rattle.std.specs.Prelude.{◌≡◌, IfOk, IfErr};
ghost use Rattle.dali_commissioning.specs.Drivers.{talk_of};
ghost use Rattle.dali_commissioning.specs.Looking.{without_any, HasLookedFor, HasNotLooked};

use crate::conducting::Ended;
use crate::driver::DriverLink;
use crate::fault::CommissionFault;
use crate::looking::Looking;
use crate::runs::commission;
use crate::unaddressed::has_others;
use crate::watch::Watch;
use dali_frame::Random24;
use dali_reserve::MemoryKeep;
use dali_script::{End, Input};
use std::io::{Read, Write};

/// Gear without short address, as far as a survey found them.
#[derive(Clone, Copy, PartialEq, Eq)]
pub enum Newcomers {
    /// No gear has none.
    Nobody,
    /// One has none, with this random address; once it was withdrawn, no gear answered any more.
    One(Random24),
    /// One has none, and others as well.
    Several,
    /// The survey ended so before it found any gear.
    Unclear(Ended),
}

/// What a survey says that wanted to give no address.
fn without_any(ended: Ended) -> Newcomers
    ensures { result ≡ without_any ended }
{
    match ended {
        Ended::Done(End::AllFound) => Newcomers::Nobody,
        Ended::Done(End::BlockFull | End::GaveUp) | Ended::Halted(_) => Newcomers::Unclear(ended),
    }
}

/// Whether gear are there that have no short address, and exactly one. A survey over these records looks for them, and
/// stops before it gives an address; then gear with the random address that it found are withdrawn, and the others are
/// asked. So none is given: who draws none, as this store takes no reservation, programs none
/// (`laws::who_reserves_nothing_gives_nothing`). Gear without short address may draw new random addresses.
///
/// The records are to have an address of their block that is neither reserved nor enrolled: if there is none a
/// survey does not search.
pub fn look_for_newcomers<R: Read, W: Write, P: Watch>(
    keep: MemoryKeep,
    driver: &mut DriverLink<R, W>,
    watch: &mut P,
) -> Result<Newcomers, CommissionFault>
    ensures looked { IfOk result (λ found. HasLookedFor keep found (talk_of R.remaining W.contents driver.old)
        (talk_of R.remaining W.contents driver.new)) }
    ensures failed { IfErr result (λ reason. HasNotLooked keep reason (talk_of R.remaining W.contents driver.old)
        (talk_of R.remaining W.contents driver.new)) }
{
    let mut looking = Looking::over(keep);
    let fault = match commission(&mut looking, driver, watch, Input::Survey, 1) {
        Ok(pass) => return Ok(without_any(pass.ended)),
        Err(fault) => fault,
    };
    match looking.wanted() {
        Some(random) => {
            if has_others(driver, random)? {
                Ok(Newcomers::Several)
            } else {
                Ok(Newcomers::One(random))
            }
        }
        None => Err(fault),
    }
}
