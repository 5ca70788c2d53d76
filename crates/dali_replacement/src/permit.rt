//! What must have been seen before a new luminaire is given the short address of one that is gone. Each thing that was
//! seen makes a value, which the next thing asks for, and only the last one lets the address be given.

ghost use Rattle.std.specs.Prelude.{◌≡◌, ℕ, true, IfOk, IfErr};
ghost use Rattle.dali_commissioning.specs.declared.census.Reply.{Reply};
ghost use Rattle.dali_commissioning.specs.Drivers.{talk_of};
ghost use Rattle.dali_commissioning.specs.Census.{IsAnswered};
ghost use Rattle.dali_commissioning.specs.declared.newcomers.Newcomers.TheVariants as new;
ghost use Rattle.dali_replacement.specs.Come.{may_be_heard};
ghost use Rattle.dali_replacement.specs.Standing.{AreThere, table_of, places_of};
ghost use Rattle.dali_replacement.specs.Permit.{HasLooked, vacant_at, vacant_come, others_at, others_come};
ghost use Rattle.dali_replacement.specs.Permit.{others_table, IsNotVacant, HasLookedBeside, IsNotLooked};
ghost use Rattle.dali_replacement.specs.Permit.{IsNotLookedBeside, HasNotGiven};
ghost use Rattle.dali_replacement.specs.Permit.{permitted_at, alone, HasGiven};

use crate::come::Come;
use crate::filling::fill;
use crate::refusal::{ReplaceFault, ReplaceRefusal};
use crate::standing::Standing;
use dali_commissioning::{
    CommissionFault, DriverLink, Newcomers, PassEnd, Unwatched, Watch, ask, commission,
    look_for_newcomers,
};
use dali_frame::Short;
use dali_reserve::{Keep, KeepError, MemoryKeep};
use dali_script::{Block, Input as Told, Kept};
use std::io::{Read, Write};

/// How many passes in a row are to have found nothing more.
const IDLE_PASSES: u8 = 3;

/// No gear has a short address; or the new gear has it, if an earlier call has begun to give it.
#[derive(Drop)]
pub struct Vacant {
    short: Short,
    come: Come,
}

/// So it is, and all other gear of the tables are there, but those that are known to be gone.
#[derive(Drop)]
pub struct OthersThere {
    short: Short,
    come: Come,
    standing: Standing,
}

/// So it is, and one gear alone has no short address; or an earlier call has begun to give it.
#[derive(Drop)]
pub struct Permit {
    short: Short,
}

impl Vacant {
    /// Asks three times who has a short address.
    ///
    /// Refused if anything else was heard than may be, given that an earlier call has come so far.
    pub fn ask<R: Read, W: Write>(
        driver: &mut DriverLink<R, W>,
        short: Short,
        come: Come,
    ) -> Result<Vacant, ReplaceFault>
        ensures seen { IfOk result (λ _. (heard : Reply) × IsAnswered short heard
            (talk_of R.remaining W.contents driver.old) (talk_of R.remaining W.contents driver.new)
            × (may_be_heard come heard ≡ true)) }
        ensures short { IfOk result (λ vacant. vacant_at vacant ≡ short) }
        ensures come { IfOk result (λ vacant. vacant_come vacant ≡ come) }
        ensures failed { IfErr result (λ fault. IsNotVacant short come fault
            (talk_of R.remaining W.contents driver.old) (talk_of R.remaining W.contents driver.new)) }
    {
        match ask(driver, short) {
            Ok(reply) => {
                if come.may_be_heard(&reply) {
                    Ok(Vacant { short, come })
                } else {
                    Err(ReplaceFault::Refused(come.refusal(reply)))
                }
            }
            Err(fault) => Err(ReplaceFault::Commission(fault)),
        }
    }

    /// All other gear are there, by where those of the tables stand, but those that are known to be gone.
    pub fn beside(self, standing: Standing, _gone: &[Short]) -> OthersThere
        requires there { AreThere 0 _gone.now (places_of standing) }
        ensures short { others_at result ≡ vacant_at self }
        ensures come { others_come result ≡ vacant_come self }
        ensures table { others_table result ≡ table_of standing }
    {
        OthersThere {
            short: self.short,
            come: self.come,
            standing,
        }
    }
}

impl OthersThere {
    /// The short address.
    pub(crate) fn short(&self) -> Short
        ensures { result ≡ others_at self.now }
    {
        self.short
    }

    /// How far an earlier call had come.
    pub fn come(&self) -> &Come
        ensures { result.now ≡ others_come self.now }
    {
        &self.come
    }

    /// The table of all others.
    pub fn table(&self) -> &Kept
        ensures { result.now ≡ others_table self.now }
    {
        self.standing.table()
    }

    /// Where all others stand.
    pub(crate) fn standing(self) -> Standing
        ensures { table_of result ≡ others_table self }
    {
        self.standing
    }

    /// Looks whether one gear alone has no short address, beside the gear of the tables, unless an earlier call has
    /// begun to give it.
    ///
    /// `NobodyNew`, `SeveralNew`, `UnclearNew`.
    pub fn look<R: Read, W: Write>(
        &self,
        driver: &mut DriverLink<R, W>,
    ) -> Result<Permit, ReplaceFault>
        ensures seen { IfOk result (λ _. HasLooked (others_at self.now) (others_table self.now) (others_come self.now)
            (talk_of R.remaining W.contents driver.old) (talk_of R.remaining W.contents driver.new)) }
        ensures short { IfOk result (λ permit. permitted_at permit ≡ others_at self.now) }
        ensures failed { IfErr result (λ fault. IsNotLooked (others_at self.now) (others_table self.now)
            (others_come self.now) fault (talk_of R.remaining W.contents driver.old)
            (talk_of R.remaining W.contents driver.new)) }
    {
        let short = self.short;
        match self.come {
            Come::Nowhere => look_beside(driver, short, self.table()),
            Come::Reserved(_) | Come::Given(_) => Ok(Permit { short }),
        }
    }
}

/// Looks whether one gear alone has no short address, beside the gear of a table.
fn look_beside<R: Read, W: Write>(
    driver: &mut DriverLink<R, W>,
    short: Short,
    table: &Kept,
) -> Result<Permit, ReplaceFault>
    ensures seen { IfOk result (λ _. (random : ℕ) × HasLookedBeside short table.now (new.One random)
        (talk_of R.remaining W.contents driver.old) (talk_of R.remaining W.contents driver.new)) }
    ensures short { IfOk result (λ permit. permitted_at permit ≡ short) }
    ensures failed { IfErr result (λ fault. IsNotLookedBeside short table.now fault
        (talk_of R.remaining W.contents driver.old) (talk_of R.remaining W.contents driver.new)) }
{
    let mut store = MemoryKeep::new(block_of(short));
    if let Err(error) = fill(&mut store, table) {
        return Err(ReplaceFault::Commission(CommissionFault::Store(error)));
    }
    match look_for_newcomers(store, driver, &mut Unwatched) {
        Ok(Newcomers::One(_)) => Ok(Permit { short }),
        Ok(Newcomers::Nobody) => Err(ReplaceFault::Refused(ReplaceRefusal::NobodyNew)),
        Ok(Newcomers::Several) => Err(ReplaceFault::Refused(ReplaceRefusal::SeveralNew)),
        Ok(Newcomers::Unclear(_)) => Err(ReplaceFault::Refused(ReplaceRefusal::UnclearNew)),
        Err(fault) => Err(ReplaceFault::Commission(fault)),
    }
}

impl Permit {
    /// The block of the short address alone, for which the store that takes the new gear is to be.
    pub fn block(&self) -> Block
        ensures { result ≡ alone (permitted_at self.now) }
    {
        block_of(self.short)
    }

    /// Gives the new gear the short address, by surveys over a store of this block that has the gear of a table then.
    ///
    /// `BadStore` if it is of another block.
    pub fn give<K: Keep, R: Read, W: Write, P: Watch>(
        &self,
        store: &mut K,
        driver: &mut DriverLink<R, W>,
        watch: &mut P,
        table: &Kept,
    ) -> Result<PassEnd, CommissionFault>
        ensures given { IfOk result (HasGiven K.is_up K.is_sound K.holds K.kept (K.block store.old)
            (permitted_at self.now) table.now store.new
            (talk_of R.remaining W.contents driver.old) (talk_of R.remaining W.contents driver.new)) }
        ensures failed { IfErr result (λ reason. HasNotGiven K.is_up K.is_sound K.holds K.kept (K.block store.old)
            (permitted_at self.now) table.now reason store.new
            (talk_of R.remaining W.contents driver.old) (talk_of R.remaining W.contents driver.new)) }
    {
        match store.read() {
            Ok(kept) if kept.block() == self.block() => {}
            Ok(_) => return Err(CommissionFault::Store(KeepError::BadStore)),
            Err(error) => return Err(CommissionFault::Store(error)),
        }
        if let Err(error) = fill(store, table) {
            return Err(CommissionFault::Store(error));
        }
        commission(store, driver, watch, Told::Survey, IDLE_PASSES)
    }
}

fn block_of(short: Short) -> Block
    ensures { result ≡ alone short }
{
    Block {
        first: short,
        last: short,
    }
}
