//! The search addresses at which gear answered.

ghost use Rattle.std.specs.Prelude.{◌≡◌, ◌++◌, OnOk, [], option_to_list};
ghost use Rattle.dali_audit.specs.Findings.{is_among};

use dali_frame::Random24;
use std::alloc::{AllocError, Global};
use std::marker::Model;

/// The search addresses at which gear answered. Contracts see the list of them, in the order of the answers.
#[derive(Drop)]
pub struct Found {
    numbers: Vec<Random24>,
}

impl Model for Found {
    ghost use Rattle.std.specs.Prelude.{List, ℕ};

    ghost Value = { List ℕ };

    ghost view = { λ f. f.numbers.items };
}

impl Found {
    pub(crate) fn new(alloc: Global) -> Found
        ensures { result ≡ [] }
    {
        Found {
            numbers: Vec::new(alloc),
        }
    }

    /// Whether this is one of them.
    pub fn contains(&self, number: Random24) -> bool
        ensures { result ≡ is_among self.now number }
    {
        self.numbers.contains(&number)
    }

    pub(crate) fn note(&mut self, number: Option<Random24>) -> Result<(), AllocError>
        ensures { OnOk result (self.new ≡ self.old ++ option_to_list number) }
    {
        if let Some(number) = number {
            self.numbers.push(number)?;
        }
        Ok(())
    }
}
