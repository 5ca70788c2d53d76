//! The words of the command line.

use crate::fault::ConsoleFault;
use std::env::Env;
use std::io;

/// The words of the command line, the program's name first.
pub fn words<S: Env + AllocGlobal>(system: &S) -> Result<Vec<String>, ConsoleFault> {
    let words = match std::env::args(system) {
        Ok(words) => words,
        Err(error) if error.kind() == io::ErrorKind::InvalidData => {
            return Err(ConsoleFault::NotText);
        }
        Err(_) => return Err(ConsoleFault::Refused),
    };
    match words.collect(system.alloc()) {
        Ok(words) => Ok(words),
        Err(_) => Err(ConsoleFault::Refused),
    }
}
