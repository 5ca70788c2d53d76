//! Tests of `dali_commission`: lines of a driver, faults of reader, writer and store, and whole runs by command lines.
#![tactic(auto)]

#[cfg(test)]
mod broken;
#[cfg(test)]
mod bus;
#[cfg(test)]
mod cabinet;
#[cfg(test)]
mod clears;
#[cfg(test)]
mod conversations;
#[cfg(test)]
mod exchanges;
#[cfg(test)]
mod mends;
#[cfg(test)]
mod programs;
#[cfg(test)]
mod replacements;
#[cfg(test)]
mod room;
#[cfg(test)]
mod shelf;
