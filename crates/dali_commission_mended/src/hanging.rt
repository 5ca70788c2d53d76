//! Gear of the tables that do not answer at their short addresses: which of them are heard among the gear that share
//! another one. A mend takes that one from them, and surveys give them their own again.

ghost use Rattle.std.specs.Prelude.{◌≡◌, ◌+◌, ◌≤◌, IfOk, IfErr, OnOk, length};
ghost use Rattle.std.specs.List.{list_any};
ghost use Rattle.dali_commissioning.specs.Drivers.{talk_of, IsCut};
ghost use Rattle.dali_commission_mended.specs.Hanging.{AnswersUnder, HangsAt, stands_against, is_returnable, sought_by};
ghost use Rattle.dali_commission_mended.specs.Hanging.{sought_at, IsLookedFor, AreLookedFor};

use arrayvec::ArrayVec;
use dali_commission_asked::{Site, is_in, why_not};
use dali_commission_said::{MendRefusal, Progress, Said, Voice};
use dali_commissioning::{CommissionFault, DriverLink, Reply, has_under, random_at};
use dali_frame::{Random24, Short};
use dali_script::{Kept, Pair};
use std::io::{Read, Write};

/// Gear of the tables, by their own short addresses, that were heard at other ones.
pub(crate) type Hanging = ArrayVec<Pair, 64>;

/// Whether the gear with this random address answers at a short address.
#[tactic(auto, unfolding(crate::specs::Hanging::AnswersUnder))]
fn answers_under<R: Read, W: Write>(
    driver: &mut DriverLink<R, W>,
    short: Short,
    random: Random24,
) -> Result<bool, CommissionFault>
    ensures answered { IfOk result (λ found. AnswersUnder random short found
        (talk_of R.remaining W.contents driver.old) (talk_of R.remaining W.contents driver.new)) }
    ensures failed { IfErr result (λ reason. IsCut reason (talk_of R.remaining W.contents driver.new)) }
{
    has_under(driver, short, random)
}

/// The first of these short addresses at which the gear with this random address answers.
fn hangs_at<R: Read, W: Write>(
    driver: &mut DriverLink<R, W>,
    random: Random24,
    shorts: &[Short],
) -> Result<Option<Short>, CommissionFault>
    ensures hangs { IfOk result (λ found. HangsAt random shorts.now found
        (talk_of R.remaining W.contents driver.old) (talk_of R.remaining W.contents driver.new)) }
    ensures failed { IfErr result (λ reason. IsCut reason (talk_of R.remaining W.contents driver.new)) }
{
    let [short, more @ ..] = shorts else {
        return Ok(None);
    };
    if answers_under(driver, *short, random)? {
        Ok(Some(*short))
    } else {
        hangs_at(driver, random, more)
    }
}

/// Whether a pair that is reserved has this short address for another gear, or this gear at another one.
fn stands_against(pair: &Pair, short: Short, random: Random24) -> bool
    ensures { result ≡ stands_against pair.now short random }
{
    if pair.address() == short.number() {
        pair.random() != random
    } else {
        pair.random() == random
    }
}

/// Whether any of some pairs does so.
fn is_barred(pairs: &[Pair], short: Short, random: Random24) -> bool
    ensures { result ≡ list_any (λ p. stands_against p short random) pairs.now }
{
    pairs.iter().any(|pair| stands_against(pair, short, random))
}

/// Whether a survey over these records may give a gear its short address again.
fn is_returnable(before: &Kept, short: Short, random: Random24) -> bool
    ensures { result ≡ is_returnable before.now short random }
{
    is_in(before.block(), short.number()) && !is_barred(before.reserved(), short, random)
}

/// The random address of a gear that is looked for, by why its absence lets none be mended.
fn sought_by(
    refusal: Option<MendRefusal>,
    before: &Kept,
    short: Short,
    random: Option<Random24>,
) -> Option<Random24>
    ensures { result ≡ sought_by refusal before.now short random }
{
    match (refusal, random) {
        (Some(MendRefusal::NotThere), Some(random)) if is_returnable(before, short, random) => {
            Some(random)
        }
        // Its absence is no reason, or it cannot be given its short address again.
        _ => None,
    }
}

/// The random address of the gear that the tables have at a short address, if it is looked for.
fn sought_at(site: &Site<'_>, short: Short, reply: Reply) -> Option<Random24>
    ensures { result ≡ sought_at site.now.table.now site.now.before.now site.now.others.now site.now.wanted.now short
        reply }
{
    let (table, others, wanted) = (site.table, site.others, site.wanted);
    let refusal = why_not(table, others, wanted, &[], short, reply);
    let random = random_at(table.enrolled(), short);
    sought_by(refusal, site.before, short, random)
}

/// Looks for the gear that the tables have at a short address at these other ones, and says where it is.
fn look_for<S: Voice, R: Read, W: Write>(
    driver: &mut DriverLink<R, W>,
    progress: &Progress<'_, S>,
    short: Short,
    sought: Option<Random24>,
    shorts: &[Short],
    hanging: &mut Hanging,
) -> Result<(), CommissionFault>
    requires { length hanging.old.items + 1 ≤ 64 }
    ensures found { OnOk result (IsLookedFor short sought shorts.now hanging.old.items hanging.new.items
        (talk_of R.remaining W.contents driver.old) (talk_of R.remaining W.contents driver.new)) }
    ensures room { length hanging.new.items ≤ length hanging.old.items + 1 }
    ensures failed { IfErr result (λ reason. IsCut reason (talk_of R.remaining W.contents driver.new)) }
{
    let Some(random) = sought else {
        return Ok(());
    };
    if let Some(at) = hangs_at(driver, random, shorts)? {
        progress.begin(&Said::OtherPlace(random, at.number(), short.number()));
        hanging.push(Pair::of(short, random));
    }
    Ok(())
}

/// Looks for the gear of the tables that are away at their short addresses, from this one on, at these other ones, and
/// adds those that are heard there.
pub(crate) fn look_for_all<S: Voice, R: Read, W: Write>(
    driver: &mut DriverLink<R, W>,
    progress: &Progress<'_, S>,
    site: &Site<'_>,
    shorts: &[Short],
    number: u8,
    replies: &[Reply],
    hanging: &mut Hanging,
) -> Result<(), CommissionFault>
    requires number { number + length replies.now ≤ 64 }
    requires room { length hanging.old.items + length replies.now ≤ 64 }
    ensures found { OnOk result (AreLookedFor site.now.table.now site.now.before.now site.now.others.now
        site.now.wanted.now shorts.now number replies.now hanging.old.items hanging.new.items
        (talk_of R.remaining W.contents driver.old) (talk_of R.remaining W.contents driver.new)) }
    ensures failed { IfErr result (λ reason. IsCut reason (talk_of R.remaining W.contents driver.new)) }
{
    let [reply, more @ ..] = replies else {
        return Ok(());
    };
    let Some(short) = Short::of(number) else {
        // A reply is left, so the number is below 64.
        unreachable!();
    };
    let sought = sought_at(site, short, *reply);
    look_for(driver, progress, short, sought, shorts, hanging)?;
    look_for_all(driver, progress, site, shorts, number + 1, more, hanging)
}
