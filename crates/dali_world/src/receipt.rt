ghost use Rattle.std.specs.Prelude.{◌≡◌};

use dali_script::{Input, Order};
use std::marker::Model;

/// What a controller that acted has to show for it: the input, the order, and the number of its step.
///
/// Only `SiteState::act` makes one, and it cannot be copied.
#[derive(Drop, Debug)]
pub struct Receipt {
    controller: u8,
    input: Input,
    order: Order,
    number: u32,
}

impl Model for Receipt {
    ghost use Rattle.dali_world.specs.Site.{Receipt};

    ghost Value = { Receipt };

    ghost view = { λ r. record { controller = r.controller; input = r.input; order = r.order; number = r.number } };
}

impl Receipt {
    pub(crate) fn new(controller: u8, input: Input, order: Order, number: u32) -> Receipt
        ensures { result ≡ (record { controller = controller; input = input; order = order; number = number }) }
    {
        Receipt {
            controller,
            input,
            order,
            number,
        }
    }

    /// The controller that acted.
    pub fn controller(&self) -> u8
        ensures { result ≡ self.now.controller }
    {
        self.controller
    }

    /// What it acted on.
    pub fn input(&self) -> Input
        ensures { result ≡ self.now.input }
    {
        self.input
    }

    /// What it ordered.
    pub fn order(&self) -> Order
        ensures { result ≡ self.now.order }
    {
        self.order
    }

    /// How many events of the log are steps of this controller, this one included.
    pub fn number(&self) -> u32
        ensures { result ≡ self.now.number }
    {
        self.number
    }
}
