//! A directory that is read while workers post in it.

use super::values::same;
use dali_enrol::{Directory, Enrolled, Pass, Table};
use dali_frame::Short;
use dali_script::Pair;
use std::alloc::Global;
use std::process::Abort;
use std::sync::atomic::AtomicBool;
use std::sync::atomic::Ordering::SeqCst;

/// How often a reader goes over all addresses before it gives up.
const LOOKS: u32 = 10_000_000;

/// What a reader has seen.
#[derive(Drop)]
pub struct Reading {
    /// Its pass.
    pub pass: Pass,
    /// The random address that it saw last, by short address.
    pub seen: [Option<u32>; 64],
    /// What was seen was seen unchanged ever after.
    pub is_steady: bool,
    /// The end came within so many looks.
    pub has_ended: bool,
}

fn number_of(entry: &Enrolled) -> u32 {
    entry.random().value()
}

/// Looks at all addresses. Whether each entry that was seen before is seen unchanged.
fn look_at_all(directory: &Directory, pass: &mut Pass, seen: &mut [Option<u32>; 64]) -> bool {
    let mut steady = true;
    for number in 0..64u8 {
        if let Some(address) = Short::of(number) {
            let found = directory.look(pass, address).map(number_of);
            let before = seen[usize::from(number)];
            if before.is_some() && before != found {
                steady = false;
            }
            seen[usize::from(number)] = found;
        }
    }
    steady
}

/// A reader with a pass of its own looks at all addresses again and again, and once more after the end was told.
pub fn reads(alloc: Global, directory: &Directory, ended: &AtomicBool) -> Option<Reading> {
    let mut pass = directory.pass(alloc).ok()?;
    let mut seen = [None; 64];
    let mut is_steady = true;
    let mut has_ended = false;
    for _ in 0..LOOKS {
        has_ended = ended.load(SeqCst);
        if !look_at_all(directory, &mut pass, &mut seen) {
            is_steady = false;
        }
        if has_ended {
            break;
        }
    }
    Some(Reading {
        pass,
        seen,
        is_steady,
        has_ended,
    })
}

/// Two passes see an entry under its address.
fn both_see<R: Abort>(
    rt: &R,
    directory: &Directory,
    one: &mut Pass,
    other: &mut Pass,
    entry: Pair,
) {
    let Some(address) = Short::of(entry.address()) else {
        return;
    };
    let wanted = Some(entry.random().value());
    same(rt, &directory.look(one, address).map(number_of), &wanted);
    same(rt, &directory.look(other, address).map(number_of), &wanted);
    Directory::agree(one, other, address);
}

/// Two passes see each entry of a table.
pub fn see_table<R: Abort>(
    rt: &R,
    directory: &Directory,
    one: &mut Pass,
    other: &mut Pass,
    table: &Table,
) {
    for entry in table.entries() {
        both_see(rt, directory, one, other, *entry);
    }
}

/// The reader saw the end, everything steadily, and nothing that stands in neither table.
pub fn has_read<R: Abort>(rt: &R, reading: &Reading, one: &Table, other: &Table) {
    assert!(rt; reading.is_steady && reading.has_ended);
    for number in 0..64u8 {
        if let Some(address) = Short::of(number) {
            let seen = reading.seen[usize::from(number)];
            let first = one.by_address(address).map(|it| it.value());
            let second = other.by_address(address).map(|it| it.value());
            same(rt, &seen, &first.or(second));
        }
    }
}
