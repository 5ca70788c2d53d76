//! What a survey keeps, as plain bytes.

ghost use Rattle.std.specs.Prelude.{◌≡◌, Some};
ghost use Rattle.dali_c.specs.Surveys.{way_of, shorts_of};

use dali_controller::{Shorts, Way};

/// The way with this code.
pub(crate) fn way_of(code: u8) -> Option<Way>
    ensures { result ≡ way_of code }
{
    match code {
        0 => Some(Way::Fresh),
        1 => Some(Way::Surveying),
        _ => None,
    }
}

/// The code of a way.
pub(crate) fn way_code(way: Way) -> u8
    ensures { way_of result ≡ Some way }
{
    match way {
        Way::Fresh => 0,
        Way::Surveying => 1,
    }
}

/// The set of short addresses with these bytes, the least first.
pub(crate) fn shorts_of(bytes: [u8; 8]) -> Shorts
    ensures { result ≡ shorts_of bytes }
{
    Shorts {
        bits: u64::from_le_bytes(bytes),
    }
}

/// The bytes of a set of short addresses.
pub(crate) fn shorts_bytes(shorts: Shorts) -> [u8; 8]
    ensures { shorts_of result ≡ shorts }
{
    shorts.bits.to_le_bytes()
}
