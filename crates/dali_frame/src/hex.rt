ghost use Rattle.std.specs.Prelude.{◌≡◌, ◌<◌, true, Some};
ghost use Rattle.std.specs.Fmt.{digit_glyph};
ghost use Rattle.dali_frame.specs.Hex.{digit_of, byte_of, forward_of, random_of, forward_text, random_text};
ghost use Rattle.dali_frame.specs.HexError.{refusal_number};

use crate::frames::Forward;
use crate::numbers::Random24;
use std::fmt;
use thiserror::Error;

/// Why a text is no forward frame. The numbers never change.
#[derive(Clone, Copy, Debug, PartialEq, Eq, Error)]
pub enum HexError {
    /// 1: the text does not have four characters.
    #[error("not four digits")]
    NotFourDigits,
    /// 2: one of the four characters is no hexadecimal digit.
    #[error("not a hexadecimal digit")]
    NotHex,
}

impl HexError {
    /// The refusal's number.
    pub fn number(self) -> u8
        ensures { result ≡ refusal_number self }
    {
        match self {
            HexError::NotFourDigits => 1,
            HexError::NotHex => 2,
        }
    }
}

#[inline(always)]
fn digit(c: u8) -> Option<u8>
    ensures { result ≡ digit_of c }
{
    match c {
        b'0'..=b'9' => Some(c - b'0'),
        b'A'..=b'F' => Some(c - b'A' + 10),
        b'a'..=b'f' => Some(c - b'a' + 10),
        _ => None,
    }
}

#[inline(always)]
fn byte(high: u8, low: u8) -> Option<u8>
    ensures { result ≡ byte_of high low }
{
    Some(16 * digit(high)? + digit(low)?)
}

fn glyph(value: u8) -> u8
    requires { value < 16 }
    ensures { result ≡ digit_glyph true value }
{
    if value < 10 {
        b'0' + value
    } else {
        b'A' + (value - 10)
    }
}

impl Forward {
    /// The frame that four hexadecimal digits write, in upper or lower case.
    ///
    /// `NotFourDigits` comes before `NotHex`.
    pub fn read_hex(text: &[u8]) -> Result<Forward, HexError>
        ensures { result ≡ forward_of text.now }
    {
        let [a, b, c, d] = text else {
            return Err(HexError::NotFourDigits);
        };
        match (byte(*a, *b), byte(*c, *d)) {
            (Some(address_byte), Some(opcode_byte)) => Ok(Forward {
                address_byte,
                opcode_byte,
            }),
            _ => Err(HexError::NotHex),
        }
    }

    /// Writes the frame as four hexadecimal digits in upper case.
    pub fn write_hex(&self, text: &mut [u8; 4])
        ensures { text.new ≡ forward_text self.now }
    {
        *text = [
            glyph(self.address_byte / 16),
            glyph(self.address_byte % 16),
            glyph(self.opcode_byte / 16),
            glyph(self.opcode_byte % 16),
        ];
    }
}

/// Four hexadecimal digits in upper case, as `write_hex` writes them.
impl fmt::Display for Forward {
    ghost output = { λ f. Some (forward_text f) };

    #[tactic(auto, using(std::proofs::lemmas::Fmt::hex_byte))]
    fn fmt<W: fmt::Write>(&self, f: &mut fmt::Formatter<W>) -> fmt::Result {
        let address = self.address_byte;
        let opcode = self.opcode_byte;
        write!(f, "{address:02X}{opcode:02X}")
    }
}

impl Random24 {
    /// The number that six hexadecimal digits write, in upper or lower case.
    pub fn read_hex(text: &[u8]) -> Option<Random24>
        ensures { result ≡ random_of text.now }
    {
        let [a, b, c, d, e, f] = text else {
            return None;
        };
        Some(Random24::from_bytes(byte(*a, *b)?, byte(*c, *d)?, byte(*e, *f)?))
    }
}

/// Six hexadecimal digits in upper case.
impl fmt::Display for Random24 {
    ghost output = { λ r. Some (random_text r) };

    #[tactic(auto, using(std::proofs::lemmas::Fmt::hex_byte))]
    fn fmt<W: fmt::Write>(&self, f: &mut fmt::Formatter<W>) -> fmt::Result {
        let high = self.high();
        let middle = self.middle();
        let low = self.low();
        write!(f, "{high:02X}{middle:02X}{low:02X}")
    }
}
