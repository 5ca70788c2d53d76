//! What a survey asks, and which addresses it gives.

ghost use Rattle.std.specs.Prelude.{◌≡◌, ◌<◌, IfSome};
ghost use Rattle.dali_controller.specs.Course.{next_asked, least_open, is_anothers};

use crate::shorts::Shorts;
use dali_frame::{Random24, Short};
use dali_script::Records;

/// The least short address from one on that a survey asks: one that the table does not name, or that is reserved.
pub(crate) fn next_asked(kept: &Records<'_>, from: u8) -> Option<Short>
    ensures next { result ≡ next_asked kept.now from }
    ensures range { IfSome result (λ address. address < 64) }
{
    let reserved = kept.reserved_marks();
    let enrolled = kept.enrolled_marks();
    for address in from..64 {
        if !enrolled[usize::from(address)] || reserved[usize::from(address)] {
            return Short::of(address);
        }
    }
    None
}

/// The least short address of the block that is open: neither reserved nor enrolled, and none of those under which a
/// survey heard gear whose random address it does not know.
pub(crate) fn least_open(kept: &Records<'_>, heard: Shorts) -> Option<Short>
    ensures { result ≡ least_open kept.now heard }
{
    let block = kept.block();
    let reserved = kept.reserved_marks();
    let enrolled = kept.enrolled_marks();
    for number in block.first.number()..block.last.number() + 1 {
        let place = usize::from(number);
        if !reserved[place] && !enrolled[place] {
            let short = Short::of(number)?;
            if !heard.has(short) {
                return Some(short);
            }
        }
    }
    None
}

/// Whether what is reserved for a random address is another gear's: gear was heard at it whose random address is
/// not known, or gear with another one is enrolled there.
pub(crate) fn is_anothers(
    kept: &Records<'_>,
    heard: Shorts,
    address: Short,
    random: Random24,
) -> bool
    ensures { result ≡ is_anothers kept.now heard address random }
{
    match kept.enrolled_at(address) {
        Some(enrolled) => heard.has(address) || enrolled != random,
        None => heard.has(address),
    }
}
