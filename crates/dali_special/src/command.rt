ghost use Rattle.std.specs.Prelude.{◌≡◌, None};
ghost use Rattle.dali_special.specs.Command.{without_data_of, program_of, program_data, row_of, rows, query_of};

use dali_frame::{Forward, Short};

/// The gear that an INITIALISE speaks to, by its data byte.
#[derive(Clone, Copy, Debug, PartialEq, Eq)]
pub enum Target {
    /// Data `00`: all gear.
    All,
    /// Data `0AAAAAA1`: the gear with this short address.
    Addressed(Short),
    /// Data `FF`: the gear without a short address.
    Unaddressed,
}

/// The byte of the random address that a QUERY RANDOM ADDRESS asks for, by its opcode.
#[derive(Clone, Copy, Debug, PartialEq, Eq)]
pub enum Part {
    /// Opcode `C2`: bits 23 to 16.
    High,
    /// Opcode `C3`: bits 15 to 8.
    Middle,
    /// Opcode `C4`: bits 7 to 0.
    Low,
}

/// An addressing command, or a frame that is none.
#[derive(Clone, Copy, Debug, PartialEq, Eq)]
pub enum Command {
    /// TERMINATE, `A1 00`: ends the initialisation of all gear.
    Terminate,
    /// INITIALISE, `A5 dd`: enables the initialisation of some gear. Send-twice.
    Initialise(Target),
    /// RANDOMISE, `A7 00`: draws a random address. Send-twice.
    Randomise,
    /// COMPARE, `A9 00`: asks for a random address that is at most the search address.
    Compare,
    /// WITHDRAW, `AB 00`: takes the gear at the search address out of the comparison.
    Withdraw,
    /// SEARCHADDRH, `B1 dd`: sets the high byte of the search address.
    SearchHigh(u8),
    /// SEARCHADDRM, `B3 dd`: sets the middle byte of the search address.
    SearchMiddle(u8),
    /// SEARCHADDRL, `B5 dd`: sets the low byte of the search address.
    SearchLow(u8),
    /// PROGRAM SHORT ADDRESS, `B7 dd`: stores a short address at the search address; `None`, data `FF`, erases it.
    Program(Option<Short>),
    /// VERIFY SHORT ADDRESS, `B9 dd`: asks for a gear with this short address.
    Verify(Short),
    /// QUERY SHORT ADDRESS, `BB 00`: asks for the short address at the search address.
    QueryShort,
    /// QUERY RANDOM ADDRESS (H), (M) or (L), `0AAAAAA1 C2`, `C3` or `C4`: asks the gear with this short address for a
    /// byte of its random address.
    RandomByte(Short, Part),
    /// Direct arc power: a frame whose address byte has last bit 0. It changes no addressing variable.
    Arc(Forward),
    /// A frame that is no command of this table.
    Other(Forward),
}

impl Target {
    ghost use Rattle.dali_special.specs.Command.{target_of, target_data};

    /// The gear that a data byte speaks of; `None` if INITIALISE ignores it (this project's profile).
    fn read(byte: u8) -> Option<Target>
        ensures { result ≡ target_of byte }
    {
        match byte {
            0x00 => Some(Target::All),
            0xFF => Some(Target::Unaddressed),
            _ => Some(Target::Addressed(Short::read(byte)?)),
        }
    }

    fn data(self) -> u8
        ensures { result ≡ target_data self }
    {
        match self {
            Target::All => 0x00,
            Target::Addressed(short) => short.code(),
            Target::Unaddressed => 0xFF,
        }
    }
}

impl Part {
    ghost use Rattle.dali_special.specs.Command.{part_of, part_code};

    /// The byte that an opcode asks for; `None` if it is none of the three.
    fn read(byte: u8) -> Option<Part>
        ensures { result ≡ part_of byte }
    {
        match byte {
            0xC2 => Some(Part::High),
            0xC3 => Some(Part::Middle),
            0xC4 => Some(Part::Low),
            _ => None,
        }
    }

    fn opcode(self) -> u8
        ensures { result ≡ part_code self }
    {
        match self {
            Part::High => 0xC2,
            Part::Middle => 0xC3,
            Part::Low => 0xC4,
        }
    }
}

/// `Some` if the data byte is `00`, as most special commands ask.
fn without_data(byte: u8, command: Command) -> Option<Command>
    ensures { result ≡ without_data_of command byte }
{
    if byte == 0 { Some(command) } else { None }
}

/// What PROGRAM SHORT ADDRESS stores by its data byte: an address, or none.
fn program(byte: u8) -> Option<Command>
    ensures { result ≡ program_of byte }
{
    if byte == 0xFF {
        return Some(Command::Program(None));
    }
    Some(Command::Program(Some(Short::read(byte)?)))
}

fn program_byte(short: Option<Short>) -> u8
    ensures { result ≡ program_data short }
{
    match short {
        None => 0xFF,
        Some(short) => short.code(),
    }
}

impl Command {
    ghost use Rattle.dali_special.specs.Command.{command_of, special_of, frame_of, is_send_twice, is_question};
    ghost use Rattle.dali_special.specs.Command.{IsSpelled};

    /// The command of a frame.
    #[tactic(auto, using(crate::proofs::Table::written_read))]
    #[inline(always)]
    pub fn read(frame: Forward) -> Command
        ensures table { result ≡ command_of frame }
        ensures written { frame_of result ≡ frame }
    {
        Command::of(frame)
    }

    #[tactic(auto, unfolding(crate::specs::Command::command_of))]
    #[inline(always)]
    fn of(frame: Forward) -> Command
        ensures { result ≡ command_of frame }
    {
        if frame.address_byte % 2 == 0 {
            return Command::Arc(frame);
        }
        match Command::query(frame) {
            Some(command) => command,
            None => Command::unaddressed(frame),
        }
    }

    /// The query of a frame, whose address byte is that of one gear.
    #[inline(always)]
    fn query(frame: Forward) -> Option<Command>
        ensures { result ≡ query_of frame.address_byte frame.opcode_byte }
    {
        let short = Short::read(frame.address_byte)?;
        Some(Command::RandomByte(short, Part::read(frame.opcode_byte)?))
    }

    /// The command of a frame that is no query and no direct arc power.
    #[inline(always)]
    fn unaddressed(frame: Forward) -> Command
        ensures { result ≡ special_of None frame }
    {
        match Command::special(frame) {
            Some(command) => command,
            None => Command::Other(frame),
        }
    }

    /// The special command of a frame, by the table.
    #[inline(always)]
    fn special(frame: Forward) -> Option<Command>
        ensures { result ≡ row_of frame.address_byte frame.opcode_byte rows }
    {
        let byte = frame.opcode_byte;
        match frame.address_byte {
            0xA1 => without_data(byte, Command::Terminate),
            0xA5 => Some(Command::Initialise(Target::read(byte)?)),
            0xA7 => without_data(byte, Command::Randomise),
            0xA9 => without_data(byte, Command::Compare),
            0xAB => without_data(byte, Command::Withdraw),
            0xB1 => Some(Command::SearchHigh(byte)),
            0xB3 => Some(Command::SearchMiddle(byte)),
            0xB5 => Some(Command::SearchLow(byte)),
            0xB7 => program(byte),
            0xB9 => Some(Command::Verify(Short::read(byte)?)),
            0xBB => without_data(byte, Command::QueryShort),
            _ => None,
        }
    }

    /// The frame of a command.
    ///
    /// It is read as this command again, unless this is an `Arc` or `Other` of a frame that has another command.
    #[tactic(auto, using(crate::proofs::Table::read_written))]
    pub fn write(self) -> Forward
        ensures table { result ≡ frame_of self }
        ensures read { IsSpelled self → command_of result ≡ self }
    {
        let (address_byte, opcode_byte) = match self {
            Command::Terminate => (0xA1, 0),
            Command::Initialise(target) => (0xA5, target.data()),
            Command::Randomise => (0xA7, 0),
            Command::Compare => (0xA9, 0),
            Command::Withdraw => (0xAB, 0),
            Command::SearchHigh(byte) => (0xB1, byte),
            Command::SearchMiddle(byte) => (0xB3, byte),
            Command::SearchLow(byte) => (0xB5, byte),
            Command::Program(short) => (0xB7, program_byte(short)),
            Command::Verify(short) => (0xB9, short.code()),
            Command::QueryShort => (0xBB, 0),
            Command::RandomByte(short, part) => (short.code(), part.opcode()),
            Command::Arc(frame) | Command::Other(frame) => return frame,
        };
        Forward {
            address_byte,
            opcode_byte,
        }
    }

    /// Whether gear execute the command only at the second of two equal frames (INITIALISE and RANDOMISE).
    pub fn is_send_twice(self) -> bool
        ensures { result ≡ is_send_twice self }
    {
        matches!(self, Command::Initialise(_) | Command::Randomise)
    }

    /// Whether gear may answer the command, so that a backward frame is awaited after it.
    pub fn is_question(self) -> bool
        ensures { result ≡ is_question self }
    {
        match self {
            Command::Compare | Command::Verify(_) | Command::QueryShort | Command::RandomByte(..) =>
                true,
            Command::Terminate
            | Command::Initialise(_)
            | Command::Randomise
            | Command::Withdraw
            | Command::SearchHigh(_)
            | Command::SearchMiddle(_)
            | Command::SearchLow(_)
            | Command::Program(_)
            | Command::Arc(_)
            | Command::Other(_) => false,
        }
    }
}
