//! The levels of a forward frame as plain bytes.

ghost use Rattle.dali_wire.specs.Levels.{sent_levels, forward_bits};
ghost use Rattle.dali_c.specs.Levels.{AreLevels};

use crate::codes::bool_code;
use dali_frame::Forward;
use dali_wire::Sender;

/// How many half bits a forward frame has with its stop condition.
const HALVES: usize = 40;

/// The levels of a frame with its stop condition, half bit by half bit: 1 while the bus is low.
#[repr(C)]
#[derive(Clone, Copy)]
pub struct PlainLevels {
    pub is_low: [u8; HALVES],
}

impl PlainLevels {
    pub(crate) fn of(frame: Forward) -> PlainLevels
        ensures { AreLevels result.is_low (sent_levels (forward_bits frame)) }
    {
        let mut sender = Sender::forward(frame);
        let mut is_low = [0; HALVES];
        for at in 0..HALVES {
            if let Some(low) = sender.half() {
                is_low[at] = bool_code(low);
            }
        }
        PlainLevels { is_low }
    }
}
