//! A new luminaire that was heard to have the short address.

ghost use Rattle.std.specs.Prelude.{◌≡◌, false, IfOk, IfErr, IfSome, OnOk};
ghost use Rattle.dali_commissioning.specs.declared.census.Reply.TheVariants as heard;
ghost use Rattle.dali_commissioning.specs.Drivers.{talk_of};
ghost use Rattle.dali_commissioning.specs.Census.{IsAnswered};
ghost use Rattle.dali_replacement.specs.Permit.{others_at, others_table};
ghost use Rattle.dali_replacement.specs.Permit.{confirmed_at, confirmed_random, confirmed_table, IsNotConfirmed};
ghost use Rattle.dali_replacement.specs.Come.{is_random, refusal_of};
ghost use Rattle.dali_replacement.specs.Tables.{AreGiven};

use crate::come::refusal_of;
use crate::permit::OthersThere;
use crate::refusal::{ReplaceFault, ReplaceRefusal};
use crate::standing::Standing;
use crate::tables::are_given;
use dali_commissioning::{DriverLink, Reply, ask};
use dali_frame::{Random24, Short};
use dali_script::Kept;
use std::io::{Read, Write};

/// The gear that all new tables have under a short address answers there, and all others are there.
#[derive(Drop)]
pub struct Confirmed {
    short: Short,
    random: Random24,
    standing: Standing,
}

impl Confirmed {
    /// Asks three times who has the short address. It must be the gear that each of the new tables has there.
    ///
    /// `NotGiven` if they do not all have the same one, `NewSilent`, `AnotherAnswers`, `SeveralAnswer`.
    pub fn ask<R: Read, W: Write>(
        driver: &mut DriverLink<R, W>,
        others: OthersThere,
        news: &[Kept],
    ) -> Result<Confirmed, ReplaceFault>
        ensures heard { IfOk result (λ seen. IsAnswered (others_at others) (heard.Random (confirmed_random seen))
            (talk_of R.remaining W.contents driver.old) (talk_of R.remaining W.contents driver.new)) }
        ensures given { IfOk result (λ seen. AreGiven (others_at others) (confirmed_random seen) news.now) }
        ensures short { IfOk result (λ seen. confirmed_at seen ≡ others_at others) }
        ensures table { IfOk result (λ seen. confirmed_table seen ≡ others_table others) }
        ensures failed { IfErr result (λ fault. IsNotConfirmed (others_at others) news.now fault
            (talk_of R.remaining W.contents driver.old) (talk_of R.remaining W.contents driver.new)) }
    {
        let short = others.short();
        let Some(random) = given(short, news) else {
            return Err(ReplaceFault::Refused(ReplaceRefusal::NotGiven));
        };
        let reply = match ask(driver, short) {
            Ok(reply) => reply,
            Err(fault) => return Err(ReplaceFault::Commission(fault)),
        };
        match is_heard(random, reply) {
            Ok(()) => Ok(Confirmed {
                short,
                random,
                standing: others.standing(),
            }),
            Err(refusal) => Err(ReplaceFault::Refused(refusal)),
        }
    }

    /// The short address.
    pub fn short(&self) -> Short
        ensures { result ≡ confirmed_at self.now }
    {
        self.short
    }

    /// The random address of the gear that has it.
    pub fn random(&self) -> Random24
        ensures { result ≡ confirmed_random self.now }
    {
        self.random
    }

    /// The table of all others.
    pub fn table(&self) -> &Kept
        ensures { result.now ≡ confirmed_table self.now }
    {
        self.standing.table()
    }
}

/// This gear was heard; or why the luminaire is not replaced.
fn is_heard(random: Random24, reply: Reply) -> Result<(), ReplaceRefusal>
    ensures heard { OnOk result (reply ≡ heard.Random random) }
    ensures not { IfErr result (λ why. (is_random random reply ≡ false) × (why ≡ refusal_of reply)) }
{
    match reply {
        Reply::Random(heard) => {
            if heard == random {
                Ok(())
            } else {
                Err(ReplaceRefusal::AnotherAnswers)
            }
        }
        Reply::Silence | Reply::Noise | Reply::Unclear | Reply::Several => Err(refusal_of(reply)),
    }
}

/// The random address of the gear that each table has under a short address.
fn given(short: Short, news: &[Kept]) -> Option<Random24>
    ensures { IfSome result (λ random. AreGiven short random news.now) }
{
    let [new, ..] = news else {
        return None;
    };
    match new.enrolled_at(short) {
        Some(random) if are_given(short, random, news) => Some(random),
        _ => None,
    }
}
