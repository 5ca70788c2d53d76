ghost use Rattle.std.specs.Prelude.{◌≡◌, ◌<◌, ℕ, false, IfSome};
ghost use Rattle.dali_frame.specs.Random.{MASK24};
ghost use Rattle.dali_script.specs.Records.{Has, HasRandom};
ghost use Rattle.dali_controller.specs.Course.{unfinished_at, next_unfinished};

use dali_frame::{Random24, Short};
use dali_script::Records;

/// The unfinished reservation with the least short address from one on: the short address after it, and the random
/// address that it is for. A reservation is unfinished while no gear with its random address is enrolled.
pub(crate) fn next_unfinished(kept: &Records<'_>, from: u8) -> Option<(u8, Random24)>
    ensures next { result ≡ next_unfinished kept.now from }
    ensures reserved { IfSome result (λ next. HasRandom kept.now.reserved next.1) }
    ensures drawn { IfSome result (λ next. next.1 < MASK24) }
{
    let maybe = kept.maybe_unfinished();
    for address in from..64 {
        if let Some(random) = unfinished_if(kept, maybe[usize::from(address)], address) {
            return Some((address + 1, random));
        }
    }
    None
}

/// The random address for which a short address is reserved, if that is unfinished. It is looked for only if it may
/// be, so that all of them together are found in one pass over the records, mostly.
fn unfinished_if(kept: &Records<'_>, maybe: bool, address: u8) -> Option<Random24>
    requires short { address < 64 }
    requires sure { maybe ≡ false → (r : ℕ) → Has kept.now.reserved (address, r) → HasRandom kept.now.enrolled r }
    ensures unfinished { result ≡ unfinished_at kept.now address }
    ensures reserved { IfSome result (λ random. HasRandom kept.now.reserved random) }
    ensures drawn { IfSome result (λ random. random < MASK24) }
{
    if maybe {
        unfinished_at(kept, Short::of(address)?)
    } else {
        None
    }
}

fn unfinished_at(kept: &Records<'_>, address: Short) -> Option<Random24>
    ensures unfinished { result ≡ unfinished_at kept.now address }
    ensures reserved { IfSome result (λ random. HasRandom kept.now.reserved random) }
    ensures drawn { IfSome result (λ random. random < MASK24) }
{
    let random = kept.reserved_at(address)?;
    match kept.enrolled_for(random) {
        Some(_) => None,
        None => Some(random),
    }
}
