//! Tests of the judge: captures of a controller at work, with and without a fault.

mod bench;
mod captures;
mod faults;
mod own;
mod plain;
mod shortest;
