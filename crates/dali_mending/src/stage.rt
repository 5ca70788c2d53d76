//! The transactions of a mending, frame by frame.

ghost use Rattle.std.specs.Prelude.{◌≡◌, slice_get};
ghost use Rattle.dali_special.specs.declared.command.Target.TheVariants.{Addressed};
ghost use Rattle.dali_special.specs.declared.command.Command.TheVariants.{Initialise};
ghost use Rattle.dali_special.specs.Command.{frame_of};
ghost use Rattle.dali_mending.specs.Transactions.{asking, drawing, beginning, probing, keeping, erasing, closing};
ghost use Rattle.dali_mending.specs.Transactions.{as_frames, frame_at, frame_next, is_own, answer_at, is_withheld};

use crate::course::Outcome;
use dali_commissioning::Reply;
use dali_frame::{Answer, Forward, Random24, Short};
use dali_script::Entry;
use dali_special::{Command, Part, Target};

/// What a mending is at. Each but the last is one transaction, of at most eight frames.
#[derive(Clone, Copy)]
pub enum Stage {
    /// The gear with the short address are asked for their random address. This was told last, so often in a row.
    Asking(Reply, u8),
    /// They draw new random addresses.
    Drawing,
    /// They are initialised, so that they can be searched.
    Beginning,
    /// Those that are left are asked under `FFFFFF`, which no random address is above.
    Left,
    /// They are searched, and asked under this number next.
    Searching(Random24),
    /// The gear with this random address is asked for its short address, and withdrawn if it tells this one. So often
    /// in a row something else was heard.
    Keeping(Random24, u8),
    /// The gear with the short address and this random address lose the short address.
    Erasing(Random24),
    /// The initialisation is ended, and they are asked again.
    Closing,
    /// The initialisation is ended, and so is the mending.
    Ending(Outcome),
    /// Nothing: the mending has ended.
    Ended(Outcome),
}

fn initialise(short: Short) -> Forward
    ensures { result ≡ frame_of (Initialise (Addressed short)) }
{
    Command::Initialise(Target::Addressed(short)).write()
}

fn asking(short: Short) -> [Forward; 3]
    ensures { result ≡ as_frames (asking short) }
{
    [
        Command::RandomByte(short, Part::High).write(),
        Command::RandomByte(short, Part::Middle).write(),
        Command::RandomByte(short, Part::Low).write(),
    ]
}

fn drawing(short: Short) -> [Forward; 5]
    ensures { result ≡ as_frames (drawing short) }
{
    [
        Command::Terminate.write(),
        initialise(short),
        initialise(short),
        Command::Randomise.write(),
        Command::Randomise.write(),
    ]
}

fn beginning(short: Short) -> [Forward; 3]
    ensures { result ≡ as_frames (beginning short) }
{
    [
        Command::Terminate.write(),
        initialise(short),
        initialise(short),
    ]
}

fn probing(number: Random24) -> [Forward; 4]
    ensures { result ≡ as_frames (probing number) }
{
    [
        Command::SearchHigh(number.high()).write(),
        Command::SearchMiddle(number.middle()).write(),
        Command::SearchLow(number.low()).write(),
        Command::Compare.write(),
    ]
}

fn keeping(short: Short, random: Random24) -> [Forward; 8]
    ensures { result ≡ as_frames (keeping short random) }
{
    [
        Command::Terminate.write(),
        initialise(short),
        initialise(short),
        Command::SearchHigh(random.high()).write(),
        Command::SearchMiddle(random.middle()).write(),
        Command::SearchLow(random.low()).write(),
        Command::QueryShort.write(),
        Command::Withdraw.write(),
    ]
}

fn erasing(short: Short, random: Random24) -> [Forward; 8]
    ensures { result ≡ as_frames (erasing short random) }
{
    [
        Command::Terminate.write(),
        initialise(short),
        initialise(short),
        Command::SearchHigh(random.high()).write(),
        Command::SearchMiddle(random.middle()).write(),
        Command::SearchLow(random.low()).write(),
        Command::Program(None).write(),
        Command::QueryShort.write(),
    ]
}

fn closing() -> [Forward; 1]
    ensures { result ≡ as_frames closing }
{
    [Command::Terminate.write()]
}

fn nth(frames: &[Forward], number: usize) -> Option<Forward>
    ensures { result ≡ slice_get frames.now number }
{
    match frames.get(number) {
        Some(frame) => Some(*frame),
        None => None,
    }
}

/// What was heard after the frame of this number of a transaction; silence if it was not sent.
pub(crate) fn answer_at(entries: &[Entry], number: usize) -> Answer
    ensures { result ≡ answer_at entries.now number }
{
    match entries.get(number) {
        Some(entry) => entry.heard,
        None => Answer::Silence,
    }
}

/// Whether this is exactly the answer of a gear with the short address to QUERY SHORT ADDRESS.
pub(crate) fn is_own(short: Short, heard: Answer) -> bool
    ensures { result ≡ is_own short heard }
{
    match heard {
        Answer::Byte(byte) => byte == short.code(),
        Answer::Silence | Answer::Damaged => false,
    }
}

impl Stage {
    /// The frame of this number of its transaction, from 0 on.
    fn frame_at(&self, short: Short, number: usize) -> Option<Forward>
        ensures { result ≡ frame_at short self.now number }
    {
        match *self {
            Stage::Asking(..) => nth(&asking(short), number),
            Stage::Drawing => nth(&drawing(short), number),
            Stage::Beginning => nth(&beginning(short), number),
            Stage::Left => nth(&probing(Random24::MASK), number),
            Stage::Searching(asked) => nth(&probing(asked), number),
            Stage::Keeping(random, _) => nth(&keeping(short, random), number),
            Stage::Erasing(random) => nth(&erasing(short, random), number),
            Stage::Closing | Stage::Ending(_) => nth(&closing(), number),
            Stage::Ended(_) => None,
        }
    }

    /// Whether the last frame of its transaction stays away: a gear is withdrawn only if it has told its short address.
    fn is_withheld(&self, short: Short, entries: &[Entry]) -> bool
        ensures { result ≡ is_withheld short self.now entries.now }
    {
        match *self {
            Stage::Keeping(..) => entries.len() == 7 && !is_own(short, answer_at(entries, 6)),
            Stage::Asking(..)
            | Stage::Drawing
            | Stage::Beginning
            | Stage::Left
            | Stage::Searching(_)
            | Stage::Erasing(_)
            | Stage::Closing
            | Stage::Ending(_)
            | Stage::Ended(_) => false,
        }
    }

    /// The frame that follows those of its transaction that were sent; None if it is over.
    pub(crate) fn frame_next(&self, short: Short, entries: &[Entry]) -> Option<Forward>
        ensures { result ≡ frame_next short self.now entries.now }
    {
        if self.is_withheld(short, entries) {
            return None;
        }
        self.frame_at(short, entries.len())
    }
}
