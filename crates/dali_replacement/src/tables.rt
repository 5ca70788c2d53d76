//! The tables of a site in which a luminaire is replaced: who gives its address, and whether the new ones are complete.

ghost use Rattle.std.specs.Prelude.{◌≡◌, ◌+◌, ◌≤◌, ◌↔◌, length, IsTrue};
ghost use Rattle.dali_script.specs.Records.{Kept, Has};
ghost use Rattle.dali_replacement.specs.Tables.{joined, giver_from, reserves, HasAllBut, HaveAllBut, IsComplete};
ghost use Rattle.dali_replacement.specs.Tables.{AreGiven, HaveAllOf, AreNew, IsGathered};

use dali_frame::{Random24, Short};
use dali_script::{Kept, Pair};

/// Who gives a short address: the records that reserve it, by their number.
#[derive(Clone, Copy)]
pub enum Giver {
    /// None of them.
    Nobody,
    /// Those with this number.
    One(u32),
    /// More than one.
    Several,
}

fn joined(reserves: bool, number: u32, others: Giver) -> Giver
    ensures { result ≡ joined reserves number others }
{
    if !reserves {
        return others;
    }
    match others {
        Giver::Nobody => Giver::One(number),
        Giver::One(_) | Giver::Several => Giver::Several,
    }
}

fn reserves(kept: &Kept, short: Short) -> bool
    ensures { result ≡ reserves short kept.now }
{
    kept.reserved()
        .iter()
        .any(|pair| pair.address() == short.number())
}

/// Who gives a short address, of records that are numbered from this number on.
pub fn giver_from(number: u32, short: Short, records: &[Kept]) -> Giver
    requires { number + length records.now ≤ 64 }
    ensures { result ≡ giver_from number short records.now }
{
    match records {
        [] => Giver::Nobody,
        [kept, more @ ..] => joined(
            reserves(kept, short),
            number,
            giver_from(number + 1, short, more),
        ),
    }
}

/// Whether a pair stands in a list of pairs.
pub(crate) fn has(pairs: &[Pair], pair: Pair) -> bool
    ensures { IsTrue result ↔ Has pairs.now pair }
{
    match pairs {
        [] => false,
        [first, more @ ..] => {
            (first.address() == pair.address() && first.random() == pair.random())
                || has(more, pair)
        }
    }
}

/// Whether a table has all pairs of a list, but those of a short address.
fn has_all_but(short: Short, table: &Kept, pairs: &[Pair]) -> bool
    ensures { IsTrue result ↔ HasAllBut short pairs.now table.now }
{
    match pairs {
        [] => true,
        [pair, more @ ..] => {
            (pair.address() == short.number() || has(table.enrolled(), *pair))
                && has_all_but(short, table, more)
        }
    }
}

/// Whether tables have all pairs of another one, but those of a short address.
#[tactic(auto, unfolding(crate::specs::Tables::HaveAllBut))]
fn have_all_but(short: Short, tables: &[Kept], other: &Kept) -> bool
    ensures { IsTrue result ↔ HaveAllBut short tables.now other.now }
{
    match tables {
        [] => true,
        [table, more @ ..] => {
            has_all_but(short, table, other.enrolled()) && have_all_but(short, more, other)
        }
    }
}

/// Whether tables have all pairs of others, but those of a short address.
fn have_all_of(short: Short, tables: &[Kept], others: &[Kept]) -> bool
    ensures { IsTrue result ↔ HaveAllOf short tables.now others.now }
{
    match others {
        [] => true,
        [other, more @ ..] => {
            have_all_but(short, tables, other) && have_all_of(short, tables, more)
        }
    }
}

/// Whether each table has a gear.
pub(crate) fn are_given(short: Short, random: Random24, tables: &[Kept]) -> bool
    ensures { IsTrue result ↔ AreGiven short random tables.now }
{
    match tables {
        [] => true,
        [table, more @ ..] => {
            has(table.enrolled(), Pair::of(short, random)) && are_given(short, random, more)
        }
    }
}

/// Whether no table has a gear.
#[tactic(auto, using(crate::proofs::Every::has_its_random))]
fn are_new(random: Random24, tables: &[Kept]) -> bool
    ensures { IsTrue result ↔ AreNew random tables.now }
{
    match tables {
        [] => true,
        [table, more @ ..] => table.enrolled_for(random).is_none() && are_new(random, more),
    }
}

/// Whether a table has all that tables have under other short addresses than this one.
pub(crate) fn is_gathered(short: Short, tables: &[Kept], all: &Kept) -> bool
    ensures { IsTrue result ↔ IsGathered short tables.now all.now }
{
    match tables {
        [] => true,
        [table, more @ ..] => {
            has_all_but(short, all, table.enrolled()) && is_gathered(short, more, all)
        }
    }
}

/// Whether new tables may take the places of old ones, in so many files: each has the new gear under the short address,
/// and all that an old or another new one has under others; and no old one has the new gear.
pub(crate) fn is_complete(
    count: usize,
    short: Short,
    random: Random24,
    old: &[Kept],
    news: &[Kept],
) -> bool
    ensures { IsTrue result ↔ IsComplete count short random old.now news.now }
{
    count > 0
        && old.len() == count
        && news.len() == count
        && are_given(short, random, news)
        && have_all_of(short, news, old)
        && have_all_of(short, news, news)
        && are_new(random, old)
}
