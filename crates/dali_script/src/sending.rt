ghost use Rattle.std.specs.Prelude.{◌≡◌};
ghost use Rattle.dali_script.specs.Sending.{is_open, half_of, opens, half_in};

use crate::trace::Entry;
use dali_frame::Forward;
use dali_special::Command;

/// Which frame of a pair a frame is. INITIALISE and RANDOMISE are executed only where they are sent twice within
/// 100 ms.
#[derive(Clone, Copy)]
pub enum Half {
    /// A frame that is sent once.
    Whole,
    /// The first of two equal frames.
    First,
    /// The second, which is to end at most 100 ms after the first.
    Second,
}

/// Which frame of a pair a frame is, where this first one of a pair was heard right before it.
pub fn half_of(waiting: Option<Forward>, frame: Forward) -> Half
    ensures { result ≡ half_of waiting frame }
{
    if !Command::read(frame).is_send_twice() {
        return Half::Whole;
    }
    if is_open(waiting, frame) {
        Half::Second
    } else {
        Half::First
    }
}

fn is_open(waiting: Option<Forward>, frame: Forward) -> bool
    ensures { result ≡ is_open waiting frame }
{
    match waiting {
        Some(first) => {
            first.address_byte == frame.address_byte && first.opcode_byte == frame.opcode_byte
        }
        None => false,
    }
}

/// The first frame of a pair that waits behind a frame, once it is heard.
pub fn opens(half: Half, frame: Forward) -> Option<Forward>
    ensures { result ≡ opens half frame }
{
    match half {
        Half::First => Some(frame),
        Half::Whole | Half::Second => None,
    }
}

/// Which frame of a pair a frame is, after these frames of its transaction.
pub fn half_in(before: &[Entry], frame: Forward) -> Half
    ensures { result ≡ half_in before.now frame }
{
    let mut waiting = None;
    for entry in before {
        waiting = opens(half_of(waiting, entry.frame), entry.frame);
    }
    half_of(waiting, frame)
}
