//! The directory of enrolled gear, as two passes see it.

use super::values::{addresses, block, same, short};
use dali_enrol::{Directory, Enrolled, Pass, Table};
use std::alloc::Global;
use std::process::Abort;
use std::test::Fail;

/// A table of two gear.
fn table_of() -> Result<Table, Fail> {
    let mut table = Table::new(block(0, 3)?);
    for numbers in [(5, 0x123456), (7, 0x000001)] {
        enrol(&mut table, numbers)?;
    }
    Ok(table)
}

fn enrol(table: &mut Table, numbers: (u8, u32)) -> Result<(), Fail> {
    let (address, number) = addresses(numbers)?;
    Ok(table.enrol(address, number)?)
}

fn numbers(entry: &Enrolled) -> (u8, u32) {
    (entry.short().number(), entry.random().value())
}

/// The card of an address, if it has an entry.
fn card_at(alloc: Global, table: &Table, address: u8) -> Result<Option<Box<Enrolled>>, Fail> {
    Ok(table.card(alloc, short(address)?)?)
}

/// The card of an address that has an entry.
fn card_of(alloc: Global, table: &Table, address: u8) -> Result<Box<Enrolled>, Fail> {
    match card_at(alloc, table, address)? {
        Some(card) => Ok(card),
        None => Err(Fail::from("a card")),
    }
}

/// What the card of an address has.
fn card_numbers(alloc: Global, table: &Table, address: u8) -> Result<Option<(u8, u32)>, Fail> {
    match card_at(alloc, table, address)? {
        Some(card) => Ok(Some(numbers(&*card))),
        None => Ok(None),
    }
}

fn cards<R: Abort>(rt: &R, alloc: Global, table: &Table) -> Result<(), Fail> {
    let entry = Some((5, 0x123456));
    same(rt, &card_numbers(alloc, table, 5)?, &entry);
    same(rt, &card_numbers(alloc, table, 6)?, &None);
    Ok(())
}

#[test]
fn an_entry_has_a_card(rt: HostRuntime) -> Result<(), Fail> {
    cards(&rt, rt.alloc(), &table_of()?)
}

/// A pass sees this at an address.
fn sees<R: Abort>(
    rt: &R,
    directory: &Directory,
    pass: &mut Pass,
    address: u8,
    wanted: Option<(u8, u32)>,
) -> Result<(), Fail> {
    let found = match directory.look(pass, short(address)?) {
        Some(entry) => Some(numbers(entry)),
        None => None,
    };
    same(rt, &found, &wanted);
    Ok(())
}

/// The card of an address is posted, and this comes back.
fn posts<R: Abort>(
    rt: &R,
    alloc: Global,
    table: &Table,
    directory: &Directory,
    pass: &mut Pass,
    posted: (u8, Option<(u8, u32)>),
) -> Result<(), Fail> {
    let (address, wanted) = posted;
    let card = card_of(alloc, table, address)?;
    let back = match directory.post(pass, card) {
        Ok(()) => None,
        Err(card) => Some(numbers(&*card)),
    };
    same(rt, &back, &wanted);
    Ok(())
}

/// Two passes of one directory: one posts, the other sees it.
fn two_passes<R: Abort>(
    rt: &R,
    alloc: Global,
    table: &Table,
    directory: &Directory,
    one: &mut Pass,
    other: &mut Pass,
) -> Result<(), Fail> {
    let entry = Some((5, 0x123456));
    sees(rt, directory, other, 5, None)?;
    posts(rt, alloc, table, directory, one, (5, None))?;
    sees(rt, directory, other, 5, entry)?;
    posts(rt, alloc, table, directory, other, (5, entry))?;
    posts(rt, alloc, table, directory, other, (7, None))?;
    sees(rt, directory, other, 5, entry)?;
    Directory::agree(one, other, short(5)?);
    sees(rt, directory, one, 5, entry)
}

fn with_two_passes<R: Abort>(
    rt: &R,
    alloc: Global,
    table: &Table,
    directory: &Directory,
) -> Result<(), Fail> {
    let mut one = directory.pass(alloc)?;
    let mut other = directory.pass(alloc)?;
    two_passes(rt, alloc, table, directory, &mut one, &mut other)
}

fn on_a_directory<R: Abort>(rt: &R, alloc: Global, table: &Table) -> Result<(), Fail> {
    let directory = Directory::new(alloc)?;
    with_two_passes(rt, alloc, table, &directory)
}

#[test]
fn an_entry_is_posted_once_and_seen_by_each_pass(rt: HostRuntime) -> Result<(), Fail> {
    on_a_directory(&rt, rt.alloc(), &table_of()?)
}
