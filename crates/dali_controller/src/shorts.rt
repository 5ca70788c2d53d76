ghost use Rattle.std.specs.Prelude.{◌≡◌, ◌≢◌, ◌<◌, ℕ, true, false};

use dali_frame::Short;

/// Some of the 64 short addresses: address a is the bit of value 2^a.
#[derive(Clone, Copy, Debug, PartialEq, Eq)]
pub struct Shorts {
    pub bits: u64,
}

impl Shorts {
    ghost use Rattle.dali_controller.specs.Shorts.{has_short, with_short, without_short};

    /// None of them.
    pub const NONE: Shorts = Shorts { bits: 0 };

    /// Whether a short address is one of them.
    pub fn has(self, address: Short) -> bool
        ensures { result ≡ has_short self address }
    {
        (self.bits >> address.number()) & 1 == 1
    }

    /// These, and one more.
    pub fn with(self, address: Short) -> Shorts
        ensures set { result ≡ with_short self address }
        ensures added { has_short result address ≡ true }
        ensures others { (a : ℕ) → a ≢ address → has_short result a ≡ has_short self a }
    {
        Shorts {
            bits: self.bits | (1 << address.number()),
        }
    }

    /// These, but this one.
    pub fn without(self, address: Short) -> Shorts
        ensures set { result ≡ without_short self address }
        ensures removed { has_short result address ≡ false }
        ensures others { (a : ℕ) → a < 64 → a ≢ address → has_short result a ≡ has_short self a }
    {
        Shorts {
            bits: self.bits & !(1 << address.number()),
        }
    }
}
