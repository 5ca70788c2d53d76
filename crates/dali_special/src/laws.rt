//! Laws of the command table, which scripts of transactions stand on. Programs don't call them.

ghost use Rattle.std.specs.Prelude.{◌≡◌, ℕ, ◌%◌, ◌↔◌, ◌==◌, true};
ghost use Rattle.dali_frame.specs.declared.frames.Forward.{Forward};
ghost use Rattle.dali_special.specs.declared.command.Command.{Command};
ghost use Rattle.dali_special.specs.declared.command.Command.TheVariants.{Terminate, SearchHigh, Arc};
ghost use Rattle.dali_special.specs.Command.{command_of, frame_of, frame, IsSpelled};

/// Every frame has one command, whose frame it is, and a command is read from its frame.
pub fn commands_are_spelled()
    ensures written { (f : Forward) → frame_of (command_of f) ≡ f }
    ensures read { (c : Command) → IsSpelled c → command_of (frame_of c) ≡ c }
    ensures spelled { (f : Forward) → IsSpelled (command_of f) }
    ensures one_frame { (f g : Forward) → command_of f ≡ command_of g → f ≡ g }
{}

/// The frames of the commands that may begin a transaction.
pub fn first_frames_are_known()
    ensures terminate { (f : Forward) → (command_of f ≡ Terminate) ↔ (f ≡ frame 0xA1 0) }
    ensures search_high { (f : Forward) (byte : ℕ) → (command_of f ≡ SearchHigh byte) ↔ (f ≡ frame 0xB1 byte) }
    ensures arc { (f : Forward) → (command_of f ≡ Arc f) ↔ ((f.address_byte % 2 == 0) ≡ true) }
{}

/// A frame of direct arc power is no special command: its command is `Arc` of itself, and no other frame's is.
pub fn arc_power_is_no_special_command()
    ensures { (f g : Forward) → command_of f ≡ Arc g → (g ≡ f) × ((f.address_byte % 2 == 0) ≡ true) }
{}
