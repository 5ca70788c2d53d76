use dali_frame::{Random24, Short};

/// Which gear a transaction has found, and how.
#[derive(Clone, Copy)]
pub enum Finding {
    /// QUERY SHORT ADDRESS under this random address was heard as this short address.
    Queried(Short, Random24),
    /// QUERY RANDOM ADDRESS (H), (M) and (L) to this short address were heard as the bytes of this random address.
    Resolved(Short, Random24),
}

impl Finding {
    ghost use Rattle.std.specs.Prelude.{◌≡◌};
    ghost use Rattle.dali_script.specs.Findings.{assigned};

    /// The short address and the random address of the gear.
    pub fn assigned(self) -> (Short, Random24)
        ensures { result ≡ assigned self }
    {
        match self {
            Finding::Queried(short, random) | Finding::Resolved(short, random) => (short, random),
        }
    }
}
