//! What a call answers. The numbers never change.

/// It was done.
pub(crate) const OK: u8 = 0;
/// The machine waits for something else, or for nothing.
pub(crate) const NOT_DUE: u8 = 1;
/// The struct is none of a machine's states.
pub(crate) const NO_MACHINE: u8 = 2;
/// An argument is out of its range, or an addition is no record.
pub(crate) const BAD_ARGUMENT: u8 = 3;
/// The struct is no controller's records.
pub(crate) const NO_RECORDS: u8 = 4;
/// The record's short address is outside the block, or its random address is `FFFFFF`.
pub(crate) const DOES_NOT_FIT: u8 = 5;
/// A record of its kind has the short address.
pub(crate) const ADDRESS_TAKEN: u8 = 6;
/// A record of its kind has the random address.
pub(crate) const RANDOM_TAKEN: u8 = 7;
/// What is released is not reserved.
pub(crate) const NOT_RESERVED: u8 = 8;
/// The struct is one of another version of the library.
pub(crate) const OTHER_VERSION: u8 = 9;
/// The time is before that of the last call.
pub(crate) const BACKWARDS: u8 = 10;
/// The last frame has not ended.
pub(crate) const BUSY: u8 = 11;
