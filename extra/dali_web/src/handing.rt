//! How what was written is handed out.

ghost use Rattle.std.specs.Prelude.{◌≡◌, ◌<◌, ◌≤◌, ◌⊎◌, ◌↔◌, IsTrue, take, length, Ok, Err};
ghost use Rattle.dali_grammar.specs.declared.reason.Explained.{Explained};
ghost use Rattle.dali_grammar.specs.ReplayFault.{status_of};
ghost use Rattle.dali_web.specs.Calls.{DONE, NO_ROOM, StandsAt};

use crate::told::{DONE, NO_ROOM, REFUSED, Told};
use dali_replay::Explained;
use std::alloc::Global;

/// Puts bytes at the front of a place, if there is room for all of them.
fn put(all: &[u8], to: &mut [u8]) -> bool
    ensures room { IsTrue result ↔ (length all.now ≤ length to.old) }
    ensures put { IsTrue result → take (length all.now) to.new ≡ all.now }
{
    let count = all.len();
    if count > to.len() {
        return false;
    }
    to[..count].copy_from_slice(all);
    true
}

/// Hands out what was written before a run ended so, and what is said of its end. Answers the status of the program
/// that does the same.
pub(crate) fn hand_out(
    alloc: Global,
    ended: Result<(), Explained>,
    written: &[u8],
    wrote: &mut [u8],
    said: &mut [u8],
    told: &mut Told,
) -> u8
    ensures done { result ≡ DONE → ended ≡ Ok tt }
    ensures wrote { result ≡ DONE → take told.new.written wrote.new ≡ written.now }
    ensures stopped { result ≡ 1 → (e : Explained) × (ended ≡ Err e) × (status_of e.fault ≡ 1)
        × StandsAt e told.new.line told.new.word × (take told.new.written wrote.new ≡ written.now) }
    ensures room { result ≡ NO_ROOM → (length wrote.old < told.new.written) ⊎ (length said.old < told.new.said) }
{
    let explained = match ended {
        Ok(()) => {
            *told = Told::of_written(written.len());
            return if put(written, wrote) { DONE } else { NO_ROOM };
        }
        Err(explained) => explained,
    };
    let Ok(text) = format!(in alloc; "{explained}") else {
        *told = Told::NOTHING;
        return REFUSED;
    };
    *told = Told::of_fault(written.len(), text.len(), &explained);
    if put(written, wrote) && put(text.as_bytes(), said) {
        explained.fault.status()
    } else {
        NO_ROOM
    }
}
