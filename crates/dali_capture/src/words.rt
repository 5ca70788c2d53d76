//! Words of a capture: numbers, bytes, identifiers, and what follows a mark.

ghost use Rattle.std.specs.Prelude.{◌≡◌, option_map, Ok};
ghost use Rattle.dali_capture.specs.Words.{is_digits, number_of, byte_in, after_mark, code_of, is_code};

use crate::fault::Reason;
use dali_frame::Forward;
use std::str;

/// The least code of an identifier that no byte may follow.
const LONGEST_CODE: u64 = 0x100_0000_0000_0000;

/// Whether a word is decimal digits alone, one at least.
fn is_digits(word: &[u8]) -> bool
    ensures { result ≡ is_digits word.now }
{
    for byte in word {
        if *byte < b'0' || *byte > b'9' {
            return false;
        }
    }
    !word.is_empty()
}

/// The number that a word is; what it is not, if it has other characters than digits.
pub fn number_in(word: &[u8], otherwise: Reason) -> Result<u64, Reason>
    ensures { result ≡ number_of otherwise word.now }
{
    if !is_digits(word) {
        return Err(otherwise);
    }
    let Ok(text) = str::from_utf8(word) else {
        return Err(otherwise);
    };
    match text.parse::<u64>() {
        Ok(number) => Ok(number),
        Err(_) => Err(Reason::TimeTooLarge),
    }
}

/// The byte that two hexadecimal digits write, in upper or lower case.
pub fn byte_in(word: &[u8]) -> Option<u8>
    ensures { result ≡ byte_in word.now }
{
    match word {
        [high, low] => match Forward::read_hex(&[b'0', b'0', *high, *low]) {
            Ok(frame) => Some(frame.opcode_byte),
            Err(_) => None,
        },
        _ => None,
    }
}

/// What follows a mark that a word begins with.
pub fn after_mark(word: &[u8], mark: u8) -> Option<&[u8]>
    ensures { option_map (λ rest. rest.now) result ≡ after_mark mark word.now }
{
    match word {
        [] => None,
        [first, ..] => {
            if *first == mark {
                Some(&word[1..])
            } else {
                None
            }
        }
    }
}

/// The code of an identifier of at most seven bytes.
pub fn code_in(identifier: &[u8]) -> Option<u64>
    ensures { result ≡ code_of identifier.now }
{
    let mut code = 1;
    for byte in identifier {
        if code >= LONGEST_CODE {
            return None;
        }
        code = 256 * code + u64::from(*byte);
    }
    Some(code)
}

/// Whether an identifier is the one of this code.
pub fn has_code(wire: Option<u64>, identifier: &[u8]) -> bool
    ensures { result ≡ is_code wire (code_of identifier.now) }
{
    match (wire, code_in(identifier)) {
        (Some(wire), Some(code)) => wire == code,
        _ => false,
    }
}
