//! Where the gear of a table stand, each of which was asked.

ghost use Rattle.std.specs.Prelude.{◌≡◌, ◌+◌, ◌≤◌, ◌↔◌, length, List, [], IsTrue, IfOk, IfErr};
ghost use Rattle.dali_script.specs.Records.{Has};
ghost use Rattle.dali_commissioning.specs.declared.census.Reply.{Reply};
ghost use Rattle.dali_commissioning.specs.Drivers.{talk_of, IsCut};
ghost use Rattle.dali_commissioning.specs.Places.{places};
ghost use Rattle.dali_replacement.specs.Standing.{IsHeard, AreHeard, AreThere, table_of, places_of};

use arrayvec::ArrayVec;
use dali_commissioning::{
    CommissionFault, DriverLink, Place, Reply, ask, is_as_recorded, places, random_at,
};
use dali_frame::Short;
use dali_script::Kept;
use std::io::{Read, Write};

/// Where the gear of a table stand, by what was heard of each.
#[derive(Drop)]
pub struct Standing {
    table: Kept,
    places: ArrayVec<Place, 64>,
}

/// What is heard of a short address that the table has. No other is asked.
fn hear<R: Read, W: Write>(
    driver: &mut DriverLink<R, W>,
    table: &Kept,
    short: Short,
) -> Result<Reply, CommissionFault>
    ensures heard { IfOk result (λ reply. IsHeard table.now short reply
        (talk_of R.remaining W.contents driver.old) (talk_of R.remaining W.contents driver.new)) }
    ensures failed { IfErr result (λ reason. IsCut reason (talk_of R.remaining W.contents driver.new)) }
{
    match random_at(table.enrolled(), short) {
        Some(_) => ask(driver, short),
        None => Ok(Reply::Silence),
    }
}

/// What is heard of each short address so, from 0 on.
#[tactic(auto, using(crate::proofs::Heard::heard_more))]
fn hear_all<R: Read, W: Write>(
    driver: &mut DriverLink<R, W>,
    table: &Kept,
) -> Result<ArrayVec<Reply, 64>, CommissionFault>
    ensures all { IfOk result (λ replies. length replies.items ≡ 64) }
    ensures heard { IfOk result (λ replies. AreHeard table.now 0 replies.items
        (talk_of R.remaining W.contents driver.old) (talk_of R.remaining W.contents driver.new)) }
    ensures failed { IfErr result (λ reason. IsCut reason (talk_of R.remaining W.contents driver.new)) }
{
    let mut replies = ArrayVec::new();
    for number in 0..64u8 {
        let Some(short) = Short::of(number) else {
            // Each number of the loop is below 64.
            unreachable!();
        };
        replies.push(hear(driver, table, short)?);
    }
    Ok(replies)
}

fn is_gone(gone: &[Short], number: u8) -> bool
    ensures { IsTrue result ↔ Has gone.now number }
{
    match gone {
        [] => false,
        [short, more @ ..] => short.number() == number || is_gone(more, number),
    }
}

/// Whether no gear is missing at the short addresses from this one on, and no other answers, but where a gear is
/// known to be gone.
fn are_there(number: u8, gone: &[Short], places: &[Place]) -> bool
    requires { number + length places.now ≤ 64 }
    ensures { IsTrue result ↔ AreThere number gone.now places.now }
{
    match places {
        [] => true,
        [place, more @ ..] => {
            (is_as_recorded(*place) || is_gone(gone, number)) && are_there(number + 1, gone, more)
        }
    }
}

impl Standing {
    /// Asks each gear of a table three times.
    pub fn ask<R: Read, W: Write>(
        driver: &mut DriverLink<R, W>,
        table: Kept,
    ) -> Result<Standing, CommissionFault>
        ensures table { IfOk result (λ standing. table_of standing ≡ table) }
        ensures heard { IfOk result (λ standing. (replies : List Reply) × (length replies ≡ 64)
            × AreHeard table 0 replies
            (talk_of R.remaining W.contents driver.old) (talk_of R.remaining W.contents driver.new)
            × (places_of standing ≡ places table [] replies)) }
        ensures failed { IfErr result (λ reason. IsCut reason (talk_of R.remaining W.contents driver.new)) }
    {
        let replies = hear_all(driver, &table)?;
        let places = places(&table, &[], &replies);
        Ok(Standing { table, places })
    }

    /// The table.
    pub fn table(&self) -> &Kept
        ensures { result.now ≡ table_of self.now }
    {
        &self.table
    }

    /// What stands under each short address, from 0 on.
    pub fn places(&self) -> &[Place]
        ensures { result.now ≡ places_of self.now }
    {
        &self.places
    }

    /// Whether all are there as recorded, but those that are known to be gone.
    pub fn are_there(&self, gone: &[Short]) -> bool
        ensures { IsTrue result ↔ AreThere 0 gone.now (places_of self.now) }
    {
        are_there(0, gone, &self.places)
    }
}
