//! What comes first: the records are read, and the gear are asked that no record names.

ghost use Rattle.std.specs.Prelude.{◌≡◌, ◌≢◌, ◌<◌, Err, IfOk, IfErr};
ghost use Rattle.dali_script.specs.Records.{Kept};
ghost use Rattle.dali_reserve.specs.declared.error.KeepError.{KeepError};
ghost use Rattle.dali_commissioning.specs.Drivers.{talk_of, IsCutBeside};
ghost use Rattle.dali_commissioning.specs.Acts.{HasNotBegun};
ghost use Rattle.dali_commissioning.specs.Census.{IsLost};
ghost use Rattle.dali_commissioning.specs.Conducted.{Stays};
ghost use Rattle.dali_commissioning.specs.Rules.{LeavesBegun};
ghost use Rattle.dali_commissioning.specs.Runs.{IsRead, IsBegun, IsChecked, IsCheckLost, Grows, outside};

use crate::census::{Reply, is_addressed, take_census};
use crate::conducting::PassEnd;
use crate::driver::DriverLink;
use crate::fault::CommissionFault;
use crate::runs::commission;
use crate::unaddressed::has_unaddressed;
use crate::watch::Watch;
use arrayvec::ArrayVec;
use dali_frame::Short;
use dali_reserve::Keep;
use dali_script::{Block, Input, Kept};
use std::io::{Read, Write};

/// What came of a beginning.
#[derive(Drop)]
pub enum Begun {
    /// Gear answer to short addresses that are not accounted for, so nothing was begun. This was heard of each short
    /// address, from 0 on; those that are accounted for were not asked.
    Addressed(ArrayVec<Reply, 64>),
    /// Machines ran, and the last one came to this.
    Commissioned(PassEnd),
}

/// The records of a store.
fn records<K: Keep>(keep: &mut K) -> Result<Kept, CommissionFault>
    ensures read { IfOk result (IsRead K.is_up K.is_sound K.holds (K.block keep.old) keep.old keep.new) }
    ensures of_block { IfOk result (λ k. k.block ≡ K.block keep.old) }
    ensures left { IfErr result (λ _. Grows K.is_up K.is_sound K.holds keep.old keep.new) }
    ensures stays { Stays K.is_up K.is_sound keep.old keep.new }
    ensures block { K.block keep.new ≡ K.block keep.old }
    ensures none_lost { result ≢ Err CommissionFault.QuestionLost }
    ensures failed { IfErr result (λ reason. (e : KeepError) × (reason ≡ CommissionFault.Store e)) }
{
    match keep.read() {
        Ok(kept) => Ok(kept),
        Err(error) => Err(CommissionFault::Store(error)),
    }
}

/// Asks each short address that the records do not name and that lies in no block of another controller, and if
/// nothing is heard, commissions by machines that begin with Start.
///
/// Such machines don't search gear that were addressed before, by another controller or by hand, and might give their
/// addresses to others. So if anything is heard, nothing is begun. Machines that begin with Survey ask themselves:
/// `commission` runs them without a census.
#[tactic(auto, using(crate::proofs::Ran::read_grows))]
pub fn begin<K: Keep, R: Read, W: Write, P: Watch>(
    keep: &mut K,
    driver: &mut DriverLink<R, W>,
    watch: &mut P,
    others: &[Block],
    quiet_runs: u8,
) -> Result<Begun, CommissionFault>
    requires some { 0 < quiet_runs }
    ensures begun { IfOk result (IsBegun K.is_up K.is_sound K.holds (K.block keep.old) others.now quiet_runs
        keep.old keep.new (talk_of R.remaining W.contents driver.old) (talk_of R.remaining W.contents driver.new)) }
    ensures lost { result ≡ Err CommissionFault.QuestionLost → (k : Kept)
        × IsRead K.is_up K.is_sound K.holds (K.block keep.old) keep.old keep.new k × IsLost k others.now
        (talk_of R.remaining W.contents driver.old) (talk_of R.remaining W.contents driver.new) }
    ensures left { IfErr result (λ _. Grows K.is_up K.is_sound K.holds keep.old keep.new) }
    ensures left_rules { IfErr result (λ reason. LeavesBegun K.is_up K.is_sound K.holds (K.block keep.old) others.now
        reason keep.old keep.new (talk_of R.remaining W.contents driver.old)
        (talk_of R.remaining W.contents driver.new)) }
    ensures block { K.block keep.new ≡ K.block keep.old }
    ensures failed { IfErr result (λ reason. HasNotBegun K.is_up K.is_sound K.holds (K.block keep.old) others.now reason
        keep.old keep.new (talk_of R.remaining W.contents driver.old) (talk_of R.remaining W.contents driver.new)) }
{
    let kept = records(keep)?;
    let replies = take_census(driver, &kept, others)?;
    if is_addressed(&replies) {
        return Ok(Begun::Addressed(replies));
    }
    let pass = commission(keep, driver, watch, Input::Start, quiet_runs)?;
    Ok(Begun::Commissioned(pass))
}

/// What a check found: the records, what is heard of each short address, from 0 on, and whether gear are there that
/// have none.
#[derive(Drop)]
pub struct Checked {
    pub kept: Kept,
    pub replies: ArrayVec<Reply, 64>,
    pub has_unaddressed: bool,
}

/// The records, what is heard of each short address outside of the blocks of other controllers, and whether gear
/// without short address are there. Nothing is committed, and no address given.
pub fn check<K: Keep, R: Read, W: Write>(
    keep: &mut K,
    driver: &mut DriverLink<R, W>,
    others: &[Block],
) -> Result<Checked, CommissionFault>
    ensures checked { IfOk result (IsChecked K.is_up K.is_sound K.holds (K.block keep.old) others.now keep.old keep.new
        (talk_of R.remaining W.contents driver.old) (talk_of R.remaining W.contents driver.new)) }
    ensures lost { result ≡ Err CommissionFault.QuestionLost → IsCheckLost (K.block keep.old) others.now
        (talk_of R.remaining W.contents driver.old) (talk_of R.remaining W.contents driver.new) }
    ensures left { IfErr result (λ _. Grows K.is_up K.is_sound K.holds keep.old keep.new) }
    ensures failed { IfErr result (λ reason. IsCutBeside reason (talk_of R.remaining W.contents driver.old)
        (talk_of R.remaining W.contents driver.new)) }
{
    let kept = records(keep)?;
    let replies = take_census(driver, &Kept::new(kept.block()), others)?;
    let has_unaddressed = has_unaddressed(driver)?;
    Ok(Checked {
        kept,
        replies,
        has_unaddressed,
    })
}

/// The first short address that is reserved and lies outside of a block.
pub fn outside(kept: &Kept, block: Block) -> Option<Short>
    ensures { result ≡ outside block kept.now.reserved }
{
    let first = block.first.number();
    let last = block.last.number();
    for pair in kept.reserved() {
        let address = pair.address();
        if address < first || last < address {
            return Short::of(address);
        }
    }
    None
}
