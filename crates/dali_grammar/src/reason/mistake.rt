//! What may be wrong with a line or a plan, and what is said of it.

use dali_events::PlanError;

/// What is wrong with a line, one of its words, or a plan.
#[derive(Clone, Copy)]
pub enum Mistake {
    // Bytes that no line has.
    ByteOrderMark,
    CarriageReturn,
    Tab,
    Unprintable,
    LateComment,
    FirstSpace,
    LastSpace,
    TwoSpaces,
    // Lines that are missing.
    NoFirstLine,
    NoSecondLine,
    // The first word of a line.
    OtherFirst,
    OtherSecond,
    OtherOnBench,
    OtherOnSite,
    OfFirst,
    OfSecond,
    OfUsed,
    OfBench,
    OfSite,
    // Further words.
    NoNumber,
    Sign,
    LeadingZero,
    NumberTooLarge,
    NoBlock,
    BlockBackwards,
    AddressTooLarge,
    NoFrame,
    NoRandom,
    NoTrouble,
    NoGearList,
    GearTooLarge,
    WordMissing,
    WordTooMany,
    DrawTooMany,
    // A plan that is refused for another cause.
    Plan(PlanError),
}

impl Mistake {
    /// Whether it is said of the first word of a line, with that word before it.
    pub fn is_of_name(self) -> bool {
        matches!(
            self,
            Mistake::OtherFirst
                | Mistake::OtherSecond
                | Mistake::OtherOnBench
                | Mistake::OtherOnSite
                | Mistake::OfFirst
                | Mistake::OfSecond
                | Mistake::OfUsed
                | Mistake::OfBench
                | Mistake::OfSite
        )
    }

    /// What is said of it.
    pub fn text(self) -> &'static str {
        match self {
            Mistake::ByteOrderMark => "a byte order mark: save the file as UTF-8 without one",
            Mistake::CarriageReturn => {
                "a carriage return: the file comes from Windows, and lines end with a line feed alone"
            }
            Mistake::Tab => "a tab: words are separated by one space",
            Mistake::Unprintable => "a byte that no line has: words are printable ASCII characters",
            Mistake::LateComment => "a comment has a line of its own, which begins with `#`",
            Mistake::FirstSpace => "a space at the beginning of the line",
            Mistake::LastSpace => "a space at the end of the line",
            Mistake::TwoSpaces => "two spaces in a row: words are separated by one space",
            Mistake::NoFirstLine => {
                "the first line is missing, which is `bench N` or `site N BLOCK ..`"
            }
            Mistake::NoSecondLine => "the second line is missing, which is `draws RRRRRR ..`",
            Mistake::OtherFirst => "is no first line",
            Mistake::OtherSecond => "is no second line",
            Mistake::OtherOnBench => "is no line of a bench",
            Mistake::OtherOnSite => "is no line of a site",
            Mistake::OfFirst => "belongs to the first line",
            Mistake::OfSecond => "belongs to the second line",
            Mistake::OfUsed => "belongs directly after the second line",
            Mistake::OfBench => "belongs to a bench",
            Mistake::OfSite => "belongs to a site",
            Mistake::NoNumber => "a number has decimal digits alone",
            Mistake::Sign => "a number has no sign",
            Mistake::LeadingZero => "a number has no leading zero",
            Mistake::NumberTooLarge => "a number is at most 1000000",
            Mistake::NoBlock => "a block is `first-last`, as 0-15",
            Mistake::BlockBackwards => "the first address of a block is not above its last",
            Mistake::AddressTooLarge => "addresses end at 63",
            Mistake::NoFrame => "a frame has four hexadecimal digits, as FE80",
            Mistake::NoRandom => "a random address has six hexadecimal digits, as 0AB12F",
            Mistake::NoTrouble => "a trouble is `lost`, `noise`, `collision` or `destroyed L`",
            Mistake::NoGearList => "a list of gear is `-`, or numbers with commas, as 0,2,5",
            Mistake::GearTooLarge => "the numbers of gear end at 127",
            Mistake::WordMissing => "a word is missing",
            Mistake::WordTooMany => "a word too many",
            Mistake::DrawTooMany => "at most 1024 numbers are drawn",
            Mistake::Plan(error) => plan_limit(error),
        }
    }
}

/// The limit that a refused plan goes past, in words that fit a script and a command line.
pub fn plan_limit(error: PlanError) -> &'static str {
    match error {
        PlanError::NoMemory => "there is too little memory",
        PlanError::GearCount => "a bus has 1 to 128 gear",
        PlanError::ControllerCount => "a site has 1 to 4 controllers, and a block for each",
        PlanError::BlockOrder => {
            "the first address of a block is not above its last, and addresses end at 63"
        }
        PlanError::BlockOverlap => "no address stands in two blocks",
        PlanError::DrawTooLarge => "no gear draws FFFFFF",
        PlanError::DrawTwice => "each number to draw stands once",
        PlanError::UnknownGear => "gear are counted from 0, up to one less than there are",
        PlanError::GearTwice => "a gear has one line `used` at most",
        PlanError::ShortTwice => "a short address is that of one gear alone",
        PlanError::RandomTooLarge => "FFFFFF is the random address of gear that drew none",
        PlanError::RandomTwice => {
            "a random address is that of one gear alone, and is not drawn again"
        }
    }
}
