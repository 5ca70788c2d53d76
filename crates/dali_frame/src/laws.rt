//! Each value has one spelling and is read back from it.
//!
//! These are laws over the definitions that the contracts of this crate cite. Programs don't call them.

ghost use Rattle.std.specs.Prelude.{◌≡◌, ℕ, ◌<◌, ◌^◌, List, Some, Ok, map};
ghost use Rattle.std.specs.Char.{to_ascii_uppercase};
ghost use Rattle.dali_frame.specs.declared.frames.Forward.{Forward};
ghost use Rattle.dali_frame.specs.Short.{code_of, short_of};
ghost use Rattle.dali_frame.specs.Random.{high_of, middle_of, low_of, number_of};
ghost use Rattle.dali_frame.specs.Hex.{forward_of, forward_text, random_of, random_text};

/// A short address is read from its code, and from no other byte.
pub fn short_addresses_are_spelled()
    ensures read { (a : ℕ) → a < 64 → short_of (code_of a) ≡ Some a }
    ensures only { (byte a : ℕ) → short_of byte ≡ Some a → (byte ≡ code_of a) × (a < 64) }
{}

/// A number of 24 bits is its three bytes, and three bytes are those of their number.
pub fn random_addresses_are_bytes()
    ensures number { (r : ℕ) → number_of (high_of r) (middle_of r) (low_of r) ≡ r }
    ensures high { (h m l : ℕ) → m < 256 → l < 256 → high_of (number_of h m l) ≡ h }
    ensures middle { (h m l : ℕ) → m < 256 → l < 256 → middle_of (number_of h m l) ≡ m }
    ensures low { (h m l : ℕ) → m < 256 → l < 256 → low_of (number_of h m l) ≡ l }
{}

/// A frame is read from its four digits, and from no other text but these digits in lower case.
pub fn frames_are_spelled()
    ensures read { (f : Forward) → f.address_byte < 256 → f.opcode_byte < 256 → forward_of (forward_text f) ≡ Ok f }
    ensures only { (text : List ℕ) (f : Forward) → forward_of text ≡ Ok f
        → map to_ascii_uppercase text ≡ forward_text f }
{}

/// A number of 24 bits is read from its six digits, and from no other text but these digits in lower case.
pub fn random_addresses_are_spelled()
    ensures read { (r : ℕ) → r < 2 ^ 24 → random_of (random_text r) ≡ Some r }
    ensures only { (text : List ℕ) (r : ℕ) → random_of text ≡ Some r → map to_ascii_uppercase text ≡ random_text r }
{}
