//! The numbers that the gear of a bench draw.

ghost use Rattle.std.specs.Prelude.{◌≡◌, ◌<◌, All, []};
ghost use Rattle.dali_frame.specs.Random.{MASK24};

use dali_frame::Random24;
use std::alloc::{AllocError, Global};
use std::marker::Model;

/// The numbers that the gear of a bench draw, in order, each of which is below `FFFFFF`. Contracts see the list of
/// them.
#[derive(Drop)]
pub struct Draws {
    numbers: Vec<Random24>,
}

impl Model for Draws {
    ghost use Rattle.std.specs.Prelude.{List, ℕ, ◌<◌, All};
    ghost use Rattle.dali_frame.specs.Random.{MASK24};

    ghost Value = { List ℕ };

    ghost view = { λ d. d.numbers.items };

    ghost invariant = { λ d. All (λ r. r < MASK24) d.numbers.items };
}

impl Draws {
    pub(crate) fn new(alloc: Global) -> Draws
        ensures { result ≡ [] }
    {
        Draws {
            numbers: Vec::new(alloc),
        }
    }

    /// All of them.
    pub fn as_slice(&self) -> &[Random24]
        ensures value { result.now ≡ self.now }
        ensures below_mask { All (λ r. r < MASK24) self.now }
    {
        self.numbers.as_slice()
    }

    /// One more, unless it is `FFFFFF`.
    pub(crate) fn push(&mut self, number: Random24) -> Result<(), AllocError> {
        if number < Random24::MASK {
            self.numbers.push(number)?;
        }
        Ok(())
    }
}
