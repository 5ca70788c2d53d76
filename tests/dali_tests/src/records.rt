//! The records that a controller keeps.

use super::values::InNumbers::{Enrol, Release, Reserve};
use super::values::{InNumbers, are_pairs, block, kept_of, random, same, short};
use dali_frame::Short;
use dali_script::{AddError, Block, Kept, Pair, Record};
use std::process::Abort;
use std::test::Fail;

/// A step of a test: a call and what it answers, or what the records show.
#[derive(Clone, Copy)]
enum Step {
    /// Records take one more, or refuse it so.
    Adds(InNumbers, Result<(), AddError>),
    /// The least address that is free has this number.
    Free(Option<u8>),
    /// What is reserved and what is enrolled, oldest first.
    Keeps(&'static [(u8, u32)], &'static [(u8, u32)]),
    /// The address that is reserved for a number.
    Reserved(u32, Option<u8>),
}

fn adds<R: Abort>(
    rt: &R,
    kept: &mut Kept,
    pair: InNumbers,
    wanted: Result<(), AddError>,
) -> Result<(), Fail> {
    let added = pair.record()?;
    assert!(rt; kept.fits(&added));
    same(rt, &kept.add(added), &wanted);
    Ok(())
}

fn number_of(address: Option<Short>) -> Option<u8> {
    match address {
        Some(address) => Some(address.number()),
        None => None,
    }
}

fn is_free<R: Abort>(rt: &R, kept: &Kept, wanted: Option<u8>) {
    same(rt, &number_of(kept.view().first_free()), &wanted);
}

fn is_reserved<R: Abort>(rt: &R, kept: &Kept, number: u32, wanted: Option<u8>) -> Result<(), Fail> {
    let reserved = kept.view().reserved_for(random(number)?);
    same(rt, &number_of(reserved), &wanted);
    Ok(())
}

fn keeps<R: Abort>(rt: &R, kept: &Kept, reserved: &[(u8, u32)], enrolled: &[(u8, u32)]) {
    are_pairs(rt, kept.reserved(), reserved);
    are_pairs(rt, kept.enrolled(), enrolled);
}

/// The steps are as they say.
fn plays<R: Abort>(rt: &R, kept: &mut Kept, steps: &[Step]) -> Result<(), Fail> {
    for step in steps {
        match *step {
            Step::Adds(pair, wanted) => adds(rt, kept, pair, wanted)?,
            Step::Free(wanted) => is_free(rt, kept, wanted),
            Step::Keeps(reserved, enrolled) => keeps(rt, kept, reserved, enrolled),
            Step::Reserved(number, wanted) => is_reserved(rt, kept, number, wanted)?,
        }
    }
    Ok(())
}

/// The steps, on records of this block.
fn tells<R: Abort>(
    rt: &R,
    bounds: (u8, u8),
    records: &[InNumbers],
    steps: &[Step],
) -> Result<(), Fail> {
    let mut kept = kept_of(bounds, records)?;
    same(rt, &kept.block(), &block(bounds.0, bounds.1)?);
    plays(rt, &mut kept, steps)
}

const IN_ORDER: [Step; 9] = [
    Step::Free(Some(4)),
    Step::Adds(Reserve(4, 0x0ABCDE), Ok(())),
    Step::Free(Some(5)),
    Step::Adds(Reserve(4, 1), Err(AddError::AddressTaken)),
    Step::Adds(Reserve(5, 0x0ABCDE), Err(AddError::RandomTaken)),
    // An enrolment of an address is no reservation of it.
    Step::Adds(Enrol(5, 0x0ABCDE), Ok(())),
    Step::Free(Some(5)),
    Step::Reserved(0x0ABCDE, Some(4)),
    Step::Keeps(&[(4, 0x0ABCDE)], &[(5, 0x0ABCDE)]),
];

#[test]
fn records_are_kept_in_order(rt: HostRuntime) -> Result<(), Fail> {
    // An empty block has no free address.
    tells(&rt, (5, 4), &[], &[Step::Free(None)])?;
    tells(&rt, (4, 7), &[], &IN_ORDER)
}

/// Three reservations, of which the second is released, and then what is free again is reserved.
const RELEASED: [Step; 10] = [
    Step::Adds(Release(5, 3), Err(AddError::NotReserved)),
    Step::Adds(Release(7, 2), Err(AddError::NotReserved)),
    // An enrolment is no reservation.
    Step::Adds(Release(6, 9), Err(AddError::NotReserved)),
    Step::Adds(Release(5, 2), Ok(())),
    Step::Keeps(&[(4, 1), (6, 3)], &[(6, 9)]),
    Step::Free(Some(5)),
    Step::Adds(Release(5, 2), Err(AddError::NotReserved)),
    Step::Adds(Reserve(5, 7), Ok(())),
    Step::Adds(Reserve(7, 2), Ok(())),
    Step::Keeps(&[(4, 1), (6, 3), (5, 7), (7, 2)], &[(6, 9)]),
];

#[test]
fn a_released_address_is_free_again(rt: HostRuntime) -> Result<(), Fail> {
    let records = [Reserve(4, 1), Reserve(5, 2), Reserve(6, 3), Enrol(6, 9)];
    tells(&rt, (4, 7), &records, &RELEASED)
}

/// A copy is the same as these records, and not as other ones.
fn is_copied<R: Abort>(rt: &R, kept: &Kept, other: &Kept) {
    let copy = kept.copy();
    same(rt, &(copy.same(kept), copy.same(other)), &(true, false));
}

#[test]
fn a_copy_is_the_same(rt: HostRuntime) -> Result<(), Fail> {
    let kept = kept_of((4, 7), &[Reserve(4, 1)])?;
    let other = kept_of((4, 7), &[Reserve(4, 1), Enrol(4, 1)])?;
    is_copied(&rt, &kept, &other);
    Ok(())
}

type Numbers = [(u8, u32); 2];

/// Whether pairs are these two, in this order.
fn are_same(pairs: &[Pair], wanted: &[Pair; 2]) -> bool {
    pairs.len() == 2 && pairs[0].is(wanted[0]) && pairs[1].is(wanted[1])
}

fn pairs_of(numbers: Numbers) -> Result<[Pair; 2], Fail> {
    let [(first, one), (second, two)] = numbers;
    Ok([
        Pair::of(short(first)?, random(one)?),
        Pair::of(short(second)?, random(two)?),
    ])
}

/// Whether records of this block have these reservations and these enrolments; None if there are no records like that.
fn made(block: Block, reserved: &[Pair; 2], enrolled: &[Pair; 2]) -> Option<bool> {
    match Kept::of(block, reserved, enrolled) {
        Some(kept) => Some(
            are_same(kept.reserved(), reserved) && are_same(kept.enrolled(), enrolled),
        ),
        None => None,
    }
}

/// The same of block 4 to 7, by numbers.
fn made_of(reserved: Numbers, enrolled: Numbers) -> Result<Option<bool>, Fail> {
    let (reserved, enrolled) = (pairs_of(reserved)?, pairs_of(enrolled)?);
    Ok(made(block(4, 7)?, &reserved, &enrolled))
}

#[test]
fn records_are_made_of_two_lists(rt: HostRuntime) -> Result<(), Fail> {
    let enrolled = [(5, 1), (63, 9)];
    for (reserved, enrolled, wanted) in [
        ([(4, 1), (7, 0xFFFFFE)], enrolled, Some(true)),
        ([(4, 1), (4, 2)], enrolled, None),
        ([(4, 1), (5, 1)], enrolled, None),
        ([(4, 1), (8, 2)], enrolled, None),
        ([(3, 1), (4, 2)], enrolled, None),
        ([(4, 1), (5, 0xFFFFFF)], enrolled, None),
        ([(4, 1), (5, 2)], [(9, 1), (9, 2)], None),
    ] {
        same(&rt, &made_of(reserved, enrolled)?, &wanted);
    }
    Ok(())
}

/// Whether each of these fits.
fn fit<R: Abort>(rt: &R, kept: &Kept, records: &[(InNumbers, bool)]) -> Result<(), Fail> {
    for (added, wanted) in records {
        same(rt, &kept.fits(&added.record()?), wanted);
    }
    Ok(())
}

#[test]
fn records_fit_their_block(rt: HostRuntime) -> Result<(), Fail> {
    let records = [
        (Reserve(3, 1), false),
        (Reserve(4, 1), true),
        (Enrol(3, 1), true),
        (Enrol(4, 0xFFFFFF), false),
        (Release(3, 1), false),
        (Release(7, 1), true),
        (Release(4, 0xFFFFFF), false),
    ];
    let kept = kept_of((4, 7), &[])?;
    fit(&rt, &kept, &records)
}

/// Whether records are those from before with this one more, with another one, and themselves with this one more.
fn more_of(kept: &Kept, before: &Kept, last: &Record, other: &Record) -> [bool; 3] {
    [
        kept.is_with(before, last),
        kept.is_with(before, other),
        kept.is_with(kept, last),
    ]
}

/// What is told of records, by those from before, those of now, the last one and another one.
fn told(
    before: &[InNumbers],
    now: &[InNumbers],
    last: InNumbers,
    other: InNumbers,
) -> Result<[bool; 3], Fail> {
    let (before, now) = (kept_of((4, 7), before)?, kept_of((4, 7), now)?);
    let (last, other) = (last.record()?, other.record()?);
    Ok(more_of(&now, &before, &last, &other))
}

#[test]
fn one_record_more_is_told(rt: HostRuntime) -> Result<(), Fail> {
    let one = [Reserve(4, 0x0ABCDE)];
    let two = [Reserve(4, 0x0ABCDE), Enrol(5, 0x0ABCDE)];
    let added = told(&one, &two, Enrol(5, 0x0ABCDE), Reserve(5, 0x0ABCDE))?;
    same(&rt, &added, &[true, false, false]);
    // A release of what is not reserved leaves all as it is.
    let three = [Reserve(4, 1), Reserve(5, 2), Reserve(6, 3)];
    let two = [Reserve(4, 1), Reserve(6, 3)];
    let released = told(&three, &two, Release(5, 2), Release(4, 1))?;
    same(&rt, &released, &[true, false, true]);
    Ok(())
}

/// A reservation and an enrolment of this address, which is the least one that is free.
fn fill<R: Abort>(rt: &R, kept: &mut Kept, number: u8) -> Result<(), Fail> {
    let drawn = u32::from(number);
    let steps = [
        Step::Free(Some(number)),
        Step::Adds(Reserve(number, drawn), Ok(())),
        Step::Adds(Enrol(number, drawn), Ok(())),
    ];
    plays(rt, kept, &steps)
}

/// A reservation and an enrolment of each short address.
fn fill_all<R: Abort>(rt: &R, kept: &mut Kept) -> Result<(), Fail> {
    for number in 0..64 {
        fill(rt, kept, number)?;
    }
    plays(rt, kept, &[Step::Free(None), Step::Reserved(64, None)])
}

#[test]
fn every_address_has_room(rt: HostRuntime) -> Result<(), Fail> {
    let mut kept = kept_of((0, 63), &[])?;
    fill_all(&rt, &mut kept)
}
