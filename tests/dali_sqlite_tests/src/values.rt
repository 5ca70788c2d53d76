//! Values by their numbers, statements by their texts, and the one assertion that compares two values.

use dali_frame::{Random24, Short};
use dali_script::{Block, Pair, Record};
use sqlite::{Alter, Connection, Error};
use std::fmt::Debug;
use std::process::Abort;
use std::test::Fail;

/// What a call answered is what was wanted.
pub fn same<T: PartialEq + Debug>(rt: &impl Abort, was: &T, wanted: &T) {
    assert_eq!(rt; was, wanted);
}

pub fn short(number: u8) -> Result<Short, Fail> {
    match Short::of(number) {
        Some(short) => Ok(short),
        None => Err(Fail::from("a short address")),
    }
}

pub fn random(number: u32) -> Result<Random24, Fail> {
    match Random24::of(number) {
        Some(random) => Ok(random),
        None => Err(Fail::from("a random address")),
    }
}

pub fn block(first: u8, last: u8) -> Result<Block, Fail> {
    Ok(Block {
        first: short(first)?,
        last: short(last)?,
    })
}

/// A record, by the numbers of its addresses.
#[derive(Clone, Copy)]
pub enum InNumbers {
    Reserve(u8, u32),
    Enrol(u8, u32),
    Release(u8, u32),
}

impl InNumbers {
    pub fn record(self) -> Result<Record, Fail> {
        match self {
            InNumbers::Reserve(address, number) => {
                Ok(Record::Reserve(short(address)?, random(number)?))
            }
            InNumbers::Enrol(address, number) => Ok(Record::Enrol(
                short(address)?,
                random(number)?,
            )),
            InNumbers::Release(address, number) => {
                Ok(Record::Release(short(address)?, random(number)?))
            }
        }
    }
}

/// These pairs of a short and a random address are these numbers, in this order.
pub fn are_pairs(rt: &impl Abort, pairs: &[Pair], wanted: &[(u8, u32)]) {
    assert!(rt; pairs.len() == wanted.len());
    for (pair, numbers) in pairs.iter().zip(wanted) {
        same(rt, &(pair.address(), pair.random().value()), numbers);
    }
}

/// Runs these statements, as another program does.
pub fn run<S: Alter>(conn: &mut Connection<S>, sql: &str) -> Result<(), Error> {
    conn.execute_batch(sql)
}

/// The number that a query answers.
pub fn number<S: Alter>(conn: &mut Connection<S>, sql: &str) -> Result<i64, Error> {
    conn.query_row(sql, &[])?.get(0)
}
