//! The table of enrolled gear.

use super::values::{addresses, are_pairs, block, same, short};
use dali_enrol::{Table, TableError};
use dali_frame::{Random24, Short};
use std::process::Abort;
use std::test::Fail;

/// A table enrols this gear, or refuses it so.
fn enrols<R: Abort>(
    rt: &R,
    table: &mut Table,
    gear: (u8, u32),
    wanted: Result<(), TableError>,
) -> Result<(), Fail> {
    let (address, number) = addresses(gear)?;
    same(rt, &table.enrol(address, number), &wanted);
    Ok(())
}

/// A table enrols these gear in turn, or refuses them so.
fn enrols_all<R: Abort>(
    rt: &R,
    table: &mut Table,
    gear: &[((u8, u32), Result<(), TableError>)],
) -> Result<(), Fail> {
    for (one, wanted) in gear {
        enrols(rt, table, *one, *wanted)?;
    }
    Ok(())
}

/// The number at an address, and the address of a number.
fn found(table: &Table, address: Short, number: Random24) -> (Option<u32>, Option<u8>) {
    let value = match table.by_address(address) {
        Some(random) => Some(random.value()),
        None => None,
    };
    match table.by_random(number) {
        Some(short) => (value, Some(short.number())),
        None => (value, None),
    }
}

/// This number is at this address, and this address is of this number.
fn finds<R: Abort>(
    rt: &R,
    table: &Table,
    gear: (u8, u32),
    wanted: (Option<u32>, Option<u8>),
) -> Result<(), Fail> {
    let (address, number) = addresses(gear)?;
    same(rt, &found(table, address, number), &wanted);
    Ok(())
}

/// A table of no entries, of the block 0 to 3.
fn table_of() -> Result<Table, Fail> {
    Ok(Table::new(block(0, 3)?))
}

fn one_entry<R: Abort>(rt: &R, table: &mut Table) -> Result<(), Fail> {
    let gear = [
        ((5, 0x123456), Ok(())),
        ((5, 0x000001), Err(TableError::AddressTaken)),
        ((6, 0x123456), Err(TableError::RandomTaken)),
        ((5, 0x123456), Err(TableError::AddressTaken)),
    ];
    enrols_all(rt, table, &gear)?;
    finds(rt, table, (5, 0x123456), (Some(0x123456), Some(5)))?;
    finds(rt, table, (6, 0x000001), (None, None))
}

#[test]
fn an_entry_is_found_by_both_of_its_halves(rt: HostRuntime) -> Result<(), Fail> {
    let mut table = table_of()?;
    one_entry(&rt, &mut table)
}

fn three_entries<R: Abort>(rt: &R, table: &mut Table) -> Result<(), Fail> {
    let gear = [(9, 0x000002), (2, 0xFFFFFE), (4, 0x000001)];
    for one in gear {
        enrols(rt, table, one, Ok(()))?;
    }
    are_pairs(rt, table.entries(), &gear);
    Ok(())
}

#[test]
fn entries_stand_in_the_order_of_enrolment(rt: HostRuntime) -> Result<(), Fail> {
    let mut table = table_of()?;
    three_entries(&rt, &mut table)
}

fn fill<R: Abort>(rt: &R, table: &mut Table) -> Result<(), Fail> {
    for number in 0..64 {
        enrols(rt, table, (63 - number, u32::from(number)), Ok(()))?;
    }
    same(rt, &table.entries().len(), &64);
    Ok(())
}

#[test]
fn a_table_has_room_for_every_short_address(rt: HostRuntime) -> Result<(), Fail> {
    let mut table = table_of()?;
    fill(&rt, &mut table)
}

/// Whether an address is of the table's block.
fn is_own(table: &Table, number: u8) -> Result<bool, Fail> {
    Ok(table.is_own(short(number)?))
}

fn owns<R: Abort>(rt: &R, table: &Table, addresses: &[(u8, bool)]) -> Result<(), Fail> {
    for (number, own) in addresses {
        same(rt, &is_own(table, *number)?, own);
    }
    same(rt, &table.block(), &block(0, 3)?);
    Ok(())
}

#[test]
fn own_addresses_lie_in_the_block(rt: HostRuntime) -> Result<(), Fail> {
    let addresses = [(0, true), (3, true), (4, false), (5, false), (63, false)];
    owns(&rt, &table_of()?, &addresses)
}
