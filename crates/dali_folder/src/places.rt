//! Where a file lies.

ghost use Rattle.std.specs.Prelude.{ℕ, List, IfOk, string_bytes};
ghost use Rattle.dali_folder.specs.Lying.{IsParted, IsJoined, IsLed, Lies};

use std::alloc::{Alloc, AllocError, Global};
use std::fs;
use std::fs::Files;

/// How many links are followed.
const LINKS: u8 = 8;

/// The folder of a file, and the name that it has there.
fn parts(name: &str) -> (&str, &str)
    ensures { IsParted name.now result.0.now result.1.now }
{
    match name.rsplit_once("/") {
        Some(("", file)) => ("/", file),
        Some(both) => both,
        None => (".", name),
    }
}

/// The folder of a file.
pub(crate) fn folder_of(name: &str) -> &str
    ensures { (file : List ℕ) × IsParted name.now result.now file }
{
    parts(name).0
}

/// The name of a file in a folder.
fn joined(alloc: Global, folder: &str, file: &str) -> Result<String, AllocError>
    ensures { IfOk result (λ at. IsJoined folder.now file.now (string_bytes at)) }
{
    if folder.ends_with("/") {
        format!(in alloc; "{folder}{file}")
    } else {
        format!(in alloc; "{folder}/{file}")
    }
}

/// Where a link leads.
fn led(alloc: Global, name: &str, to: &str) -> Result<String, AllocError>
    ensures { IfOk result (λ at. IsLed name.now to.now (string_bytes at)) }
{
    if to.starts_with("/") {
        String::from_str(alloc, to)
    } else {
        joined(alloc, folder_of(name), to)
    }
}

/// The name under which a file lies, from the root on, whatever links lead there; it need not be there. If its
/// folder is not there, it is the name itself.
pub fn place<R: Files + Alloc>(rt: &R, alloc: Global, name: &str) -> Result<String, AllocError>
    ensures { IfOk result (λ at. Lies name.now (string_bytes at)) }
{
    let mut at = String::from_str(alloc, name)?;
    for _ in 0..LINKS {
        match fs::read_link(rt, at.as_str()) {
            Ok(to) => at = led(alloc, at.as_str(), to.as_str())?,
            Err(_) => break,
        }
    }
    let (folder, file) = parts(at.as_str());
    match fs::canonicalize(rt, folder) {
        Ok(folder) => joined(alloc, folder.as_str(), file),
        Err(_) => Ok(at),
    }
}
