//! Old files that are kept and new ones that are put aside: under names that nothing else has.

ghost use Rattle.std.specs.Prelude.{◌≡◌, ◌↔◌, true, IfOk, OnOk, ℕ, IsTrue, string_bytes, false};
ghost use Rattle.dali_replacement.specs.Swapping.{IsWithout};
ghost use Rattle.dali_commission_stores.specs.Calls.{Has};
ghost use Rattle.dali_commission_stores.specs.Keeping.{AreKeptTold, IsAside, AreFree, aside_at};
ghost use Rattle.dali_commission_stores.specs.Keeping.{LiesElsewhere, LieElsewhere};
ghost use Rattle.dali_commission_stores.specs.Seen.{LiesOnLine};

use crate::records::{Reading, lend};
use crate::stores::Stores;
use dali_commission_said::{Failure, Said, StoreFault, Voice, or_say, say, say_refused};
use dali_replacement::{aside_of, kept_of, new_of};
use dali_script::Block;
use std::alloc::Global;

/// Whether a name stands on one line.
fn is_line(name: &str) -> bool
    ensures { IsTrue result ↔ IsWithout 10 name.now }
{
    !name.as_bytes().contains(&10)
}

/// Where the file of a name lies. A journal names each file on a line.
pub fn place_of<S: Voice + AllocGlobal, F: Stores>(
    system: &S,
    stores: &F,
    name: &str,
) -> Result<String, Failure>
    ensures { IfOk result (λ at. LiesOnLine F.saw stores.now name.now (string_bytes at)) }
{
    let place = or_say(system, name, stores.place_of(system.alloc(), name))?;
    if is_line(&place) {
        Ok(place)
    } else {
        Err(say_refused(system, name, Failure::Store(StoreFault::CannotOpen)))
    }
}

/// Says where the old files of these names are kept.
pub fn say_kept<S: Voice + AllocGlobal>(
    system: &S,
    names: &[String],
    number: u32,
) -> Result<(), Failure>
    ensures { OnOk result (AreKeptTold (S.told system.now) number names.now) }
{
    let [name, more @ ..] = names else {
        return Ok(());
    };
    let kept = kept_of(system.alloc(), name, number)?;
    say(system, &Said::KeptAs(name, &kept));
    say_kept(system, more, number)
}

/// Puts aside the new file that an earlier call has left for a name, if there is one.
pub fn put_one_aside<S: Voice + AllocGlobal, F: Stores>(
    system: &S,
    stores: &mut F,
    name: &str,
) -> Result<(), Failure>
    ensures { OnOk result (IsAside F.made F.saw (S.told system.now) name.now stores.old stores.new) }
{
    let alloc = system.alloc();
    let new = new_of(alloc, name)?;
    if !stores.has(&new) {
        return Ok(());
    }
    let aside = free_aside(alloc, stores, name)?;
    // Once it is closed, nothing of it lies in a log.
    or_say(
        system,
        &new,
        lend(alloc, stores, &new, Block::ALL, Reading, &mut ()),
    )?;
    or_say(system, &new, stores.rename(alloc, &new, &aside))?;
    say(system, &Said::Aside(&new, &aside));
    Ok(())
}

/// How many numbers are tried for a name.
const MOST: u32 = 10_000;

/// Whether a name does not lie at a place.
fn lies_elsewhere<F: Stores>(
    alloc: Global,
    stores: &F,
    name: &str,
    place: &str,
) -> Result<bool, Failure>
    ensures { IfOk result (λ so. IsTrue so → LiesElsewhere F.saw stores.now place.now name.now) }
{
    let at = stores.place_of(alloc, name)?;
    Ok(at.as_str() != place)
}

/// Whether none of these names lies there.
fn lie_elsewhere<F: Stores>(
    alloc: Global,
    stores: &F,
    names: &[String],
    place: &str,
) -> Result<bool, Failure>
    ensures { IfOk result (λ so. IsTrue so → LieElsewhere F.saw stores.now place.now names.now) }
{
    let [name, more @ ..] = names else {
        return Ok(true);
    };
    if lies_elsewhere(alloc, stores, name, place)? {
        lie_elsewhere(alloc, stores, more, place)
    } else {
        Ok(false)
    }
}

fn is_free<F: Stores>(
    alloc: Global,
    stores: &F,
    names: &[String],
    others: &[String],
    number: u32,
) -> Result<bool, Failure>
    ensures { IfOk result (λ is_free. IsTrue is_free → AreFree F.saw stores.now others.now number names.now) }
{
    let [name, more @ ..] = names else {
        return Ok(true);
    };
    let kept = kept_of(alloc, name, number)?;
    if !stores.has(&kept) && lie_elsewhere(alloc, stores, others, &kept)? {
        is_free(alloc, stores, more, others, number)
    } else {
        Ok(false)
    }
}

/// The least number under which no old file of these names is kept, and none of some others lies or is to lie.
pub fn free_number<F: Stores>(
    alloc: Global,
    stores: &F,
    names: &[String],
    others: &[String],
) -> Result<u32, Failure>
    ensures { IfOk result (λ number. AreFree F.saw stores.now others.now number names.now) }
{
    for number in 1..MOST {
        if is_free(alloc, stores, names, others, number)? {
            return Ok(number);
        }
    }
    Err(Failure::Store(StoreFault::CannotOpen))
}

/// The first name for a new file that is put aside which nothing has.
pub(crate) fn free_aside<F: Stores>(
    alloc: Global,
    stores: &F,
    name: &str,
) -> Result<String, Failure>
    ensures { IfOk result (λ aside. F.saw stores.now (Has (string_bytes aside) false)
        × ((number : ℕ) × (string_bytes aside ≡ aside_at name.now number))) }
{
    for number in 1..MOST {
        let aside = aside_of(alloc, name, number)?;
        if !stores.has(&aside) {
            return Ok(aside);
        }
    }
    Err(Failure::Store(StoreFault::CannotOpen))
}
