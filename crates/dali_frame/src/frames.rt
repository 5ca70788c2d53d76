/// A forward frame: 16 bits, sent by an application controller (IEC 62386-101:2014, forward frames).
#[derive(Clone, Copy, Debug, PartialEq, Eq)]
pub struct Forward {
    /// The byte sent first.
    pub address_byte: u8,
    /// The byte sent last; of a special command, its data.
    pub opcode_byte: u8,
}

/// What is heard after a forward frame (IEC 62386-101:2014, backward frames).
#[derive(Clone, Copy, Debug, PartialEq, Eq)]
pub enum Answer {
    /// No backward frame.
    Silence,
    /// A backward frame of these 8 bits.
    Byte(u8),
    /// A backward frame that cannot be read, as of several gear that answer together.
    Damaged,
}
