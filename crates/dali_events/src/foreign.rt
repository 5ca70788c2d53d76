ghost use Rattle.std.specs.Prelude.{◌≡◌};
ghost use Rattle.dali_events.specs.Foreign.{is_foreign, changes_addresses, selects_gear};

use dali_frame::Forward;
use dali_special::Command;

/// Whether a frame of another device may come on the bus at any moment, as of a sensor or a push button. Direct arc
/// power may, and what is no addressing command. RESET and SET SHORT ADDRESS change addresses, and PHYSICAL SELECTION
/// is an addressing command of edition 1, so these three may not.
pub fn is_foreign(frame: Forward) -> bool
    ensures { result ≡ is_foreign frame }
{
    match Command::read(frame) {
        Command::Arc(_) => true,
        Command::Other(_) => !(changes_addresses(frame) || selects_gear(frame)),
        Command::Terminate
        | Command::Initialise(_)
        | Command::Randomise
        | Command::Compare
        | Command::Withdraw
        | Command::SearchHigh(_)
        | Command::SearchMiddle(_)
        | Command::SearchLow(_)
        | Command::Program(_)
        | Command::Verify(_)
        | Command::QueryShort
        | Command::RandomByte(..) => false,
    }
}

/// RESET (opcode `20`) and SET SHORT ADDRESS (`80`), to one gear, a group, all, or those without short address.
fn changes_addresses(frame: Forward) -> bool
    ensures { result ≡ changes_addresses frame }
{
    let to_gear = frame.address_byte < 0xA0 || frame.address_byte >= 0xFC;
    to_gear && (frame.opcode_byte == 0x20 || frame.opcode_byte == 0x80)
}

/// PHYSICAL SELECTION (`BD00`) of IEC 62386-102:2009.
fn selects_gear(frame: Forward) -> bool
    ensures { result ≡ selects_gear frame }
{
    frame.address_byte == 0xBD && frame.opcode_byte == 0
}
