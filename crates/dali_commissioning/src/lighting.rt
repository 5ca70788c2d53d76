ghost use Rattle.std.specs.Prelude.{◌≡◌, ◌*◌, not, Some, None, IfOk, IfErr, OnOk};
ghost use Rattle.std.specs.Io.KnownBytes.{Appends};
ghost use Rattle.dali_script.specs.declared.orders.Input.{Input};
ghost use Rattle.dali_special.specs.Command.{frame};
ghost use Rattle.dali_script.specs.declared.sending.Half.TheVariants as half;
ghost use Rattle.dali_commissioning.specs.Drivers.{talk_of, writer_of, fault_of, is_lost};
ghost use Rattle.dali_commissioning.specs.Lines.{put_text};
ghost use Rattle.dali_commissioning.specs.Census.{IsPut, is_sent};

use crate::driver::{DriverFault, DriverLink};
use dali_frame::{Forward, Priority, Short};
use dali_script::{Half, Input};
use std::io::{Read, Write};

/// Whether this tells that a frame was sent whole.
pub(crate) fn is_sent(told: Input) -> bool
    ensures { result ≡ is_sent told }
{
    match told {
        Input::Heard(_) => true,
        Input::Start
        | Input::Survey
        | Input::Destroyed
        | Input::Lapsed
        | Input::Committed
        | Input::CommitFailed => false,
    }
}

/// The frame of direct arc power.
fn arc_power(short: Short, level: u8) -> Forward
    ensures { result ≡ frame (2 * short) level }
{
    let address_byte = 2 * short.number();
    Forward {
        address_byte,
        opcode_byte: level,
    }
}

/// Sets the light of the gear with a short address, by a frame of direct arc power: 0 is off, 254 the most, 255 (MASK)
/// leaves it as it is. Answers whether the frame was sent whole.
///
/// No addressing variable of any gear changes by it.
pub fn light<R: Read, W: Write>(
    driver: &mut DriverLink<R, W>,
    short: Short,
    level: u8,
) -> Result<bool, DriverFault>
    ensures put { IfOk result (λ sent. (told : Input) × IsPut 2 (frame (2 * short) level) half.Whole told
        (talk_of R.remaining W.contents driver.old) (talk_of R.remaining W.contents driver.new)
        × (sent ≡ is_sent told)) }
    ensures lost { IfOk result (λ sent. is_lost driver.new ≡ not sent) }
    ensures failed { IfErr result (λ fault. fault_of driver.new ≡ Some fault) }
{
    let told = driver.exchange(Priority::ARC, arc_power(short, level), Half::Whole)?;
    Ok(is_sent(told))
}

/// Writes the line of the same frame, and reads nothing: for the end, when the driver tells no more. So it does that
/// after a fault, too.
pub fn light_at_last<R: Read, W: Write>(
    driver: &mut DriverLink<R, W>,
    short: Short,
    level: u8,
) -> Result<(), DriverFault>
    ensures wrote { OnOk result (Appends (W.contents (writer_of driver.old)) (W.contents (writer_of driver.new))
        (put_text 2 (frame (2 * short) level) half.Whole)) }
    ensures failed { IfErr result (λ fault. fault_of driver.new ≡ Some fault) }
    ensures open { OnOk result (fault_of driver.new ≡ None) }
{
    driver.announce(Priority::ARC, arc_power(short, level), Half::Whole)
}
