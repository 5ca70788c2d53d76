use dali_frame::Short;

/// The short addresses that one controller may give, `first` to `last`; empty if `first` is above `last`.
#[derive(Clone, Copy, Debug, PartialEq, Eq)]
pub struct Block {
    pub first: Short,
    pub last: Short,
}

impl Block {
    /// All 64 short addresses.
    pub const ALL: Block = Block {
        first: Short::FIRST,
        last: Short::LAST,
    };
}
