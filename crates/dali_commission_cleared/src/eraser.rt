//! The machine that takes the short addresses of all gear away: it searches one after the other, and erases.

ghost use Rattle.std.specs.Prelude.{◌≡◌, nat_le, slice_get};
ghost use Rattle.dali_commission_cleared.specs.Erasing.{as_frames, beginning, probing, erasing, closing, frame_at};
ghost use Rattle.dali_commission_cleared.specs.Erasing.{half_at, erasing_next, is_heard, answered, passed};
ghost use Rattle.dali_commission_cleared.specs.Erasing.{ascent_after, erased, stage_after, begun, finished, heard_once};
ghost use Rattle.dali_commission_cleared.specs.Erasing.{lost_once, erasing_told};

use dali_frame::{Answer, Forward, Priority, Random24};
use dali_mending::Put;
use dali_script::{Half, Input};
use dali_search::{Ascent, Step};
use dali_special::{Command, Target};

/// How often in a row a transaction may be lost.
const LOST: u8 = 8;

/// What it is at. Each but the last is one transaction.
#[derive(Clone, Copy)]
pub(crate) enum Stage {
    /// All gear are initialised.
    Beginning,
    /// They are asked under this number.
    Searching(Random24),
    /// The gear with this random address lose the short address, are withdrawn, and asked whether they are there.
    Erasing(Random24),
    /// No gear answers any more but those that have no random address, which are asked under `FFFFFF`.
    Left,
    /// The initialisation is ended.
    Closing,
    /// Nothing: it has ended.
    Ended,
}

fn beginning() -> [Forward; 3]
    ensures { result ≡ as_frames beginning }
{
    [
        Command::Terminate.write(),
        Command::Initialise(Target::All).write(),
        Command::Initialise(Target::All).write(),
    ]
}

fn probing(number: Random24) -> [Forward; 4]
    ensures { result ≡ as_frames (probing number) }
{
    [
        Command::SearchHigh(number.high()).write(),
        Command::SearchMiddle(number.middle()).write(),
        Command::SearchLow(number.low()).write(),
        Command::Compare.write(),
    ]
}

fn erasing(random: Random24) -> [Forward; 6]
    ensures { result ≡ as_frames (erasing random) }
{
    [
        Command::SearchHigh(random.high()).write(),
        Command::SearchMiddle(random.middle()).write(),
        Command::SearchLow(random.low()).write(),
        Command::Program(None).write(),
        Command::Withdraw.write(),
        Command::QueryShort.write(),
    ]
}

fn closing() -> [Forward; 1]
    ensures { result ≡ as_frames closing }
{
    [Command::Terminate.write()]
}

fn nth(frames: &[Forward], number: u8) -> Option<Forward>
    ensures { result ≡ slice_get frames.now number }
{
    match frames.get(usize::from(number)) {
        Some(frame) => Some(*frame),
        None => None,
    }
}

/// The frame of this number of the transaction of a stage, from 0 on.
fn frame_at(stage: &Stage, number: u8) -> Option<Forward>
    ensures { result ≡ frame_at stage.now number }
{
    match *stage {
        Stage::Beginning => nth(&beginning(), number),
        Stage::Searching(asked) => nth(&probing(asked), number),
        Stage::Erasing(random) => nth(&erasing(random), number),
        Stage::Left => nth(&probing(Random24::MASK), number),
        Stage::Closing => nth(&closing(), number),
        Stage::Ended => None,
    }
}

/// Which half of a send-twice command it is.
fn half_at(stage: &Stage, number: u8) -> Half
    ensures { result ≡ half_at stage.now number }
{
    match *stage {
        Stage::Beginning => {
            if number == 1 {
                Half::First
            } else if number == 2 {
                Half::Second
            } else {
                Half::Whole
            }
        }
        Stage::Searching(_) | Stage::Erasing(_) | Stage::Left | Stage::Closing | Stage::Ended => {
            Half::Whole
        }
    }
}

/// Whether a backward frame came, clean or damaged.
fn is_heard(heard: Answer) -> bool
    ensures { result ≡ is_heard heard }
{
    match heard {
        Answer::Silence => false,
        Answer::Byte(_) | Answer::Damaged => true,
    }
}

/// A search with one more answer.
fn answered(ascent: &Ascent, told: bool) -> Ascent
    ensures { result ≡ answered ascent.now told }
{
    let mut next = ascent.copy();
    match next.step() {
        Step::Again => {
            let _ = next.answer(told);
        }
        Step::Found(_) | Step::Nobody => {}
    }
    next
}

/// A search once gear were erased: above them; or anew if none answered, since an answer of another gear was lost.
fn passed(ascent: &Ascent, is_there: bool) -> Ascent
    ensures { result ≡ passed ascent.now is_there }
{
    let mut next = ascent.copy();
    if is_there {
        next.go_on();
    } else {
        next.begin_anew();
    }
    next
}

/// The search after a transaction, after whose last frame this was heard.
fn ascent_after(stage: &Stage, ascent: &Ascent, heard: Answer) -> Ascent
    ensures { result ≡ ascent_after stage.now ascent.now heard }
{
    match *stage {
        Stage::Searching(_) => answered(ascent, is_heard(heard)),
        Stage::Erasing(_) => passed(ascent, is_heard(heard)),
        Stage::Beginning | Stage::Left | Stage::Closing | Stage::Ended => ascent.copy(),
    }
}

/// What follows a search.
fn sought(ascent: &Ascent) -> Stage
    ensures { result ≡ erased ascent.now }
{
    match ascent.step() {
        Step::Again => Stage::Searching(ascent.probe()),
        Step::Found(random) => Stage::Erasing(random),
        Step::Nobody => Stage::Left,
    }
}

/// The stage after a transaction, by the search after it.
fn stage_after(stage: &Stage, ascent: &Ascent, heard: Answer) -> Stage
    ensures { result ≡ stage_after stage.now ascent.now heard }
{
    match *stage {
        Stage::Beginning => Stage::Searching(ascent.probe()),
        Stage::Searching(_) => sought(ascent),
        Stage::Erasing(random) => {
            if random == Random24::MASK {
                Stage::Closing
            } else {
                Stage::Searching(ascent.probe())
            }
        }
        Stage::Left => {
            if is_heard(heard) {
                Stage::Erasing(Random24::MASK)
            } else {
                Stage::Closing
            }
        }
        Stage::Closing | Stage::Ended => Stage::Ended,
    }
}

/// What takes the short addresses of all gear away.
#[derive(Drop)]
pub(crate) struct Eraser {
    pub stage: Stage,
    /// How many frames of its transaction were sent.
    pub sent: u8,
    pub ascent: Ascent,
    /// How often in a row it was lost.
    pub lost: u8,
}

impl Eraser {
    /// Before its first frame.
    pub fn new() -> Eraser
        ensures { result ≡ begun }
    {
        Eraser {
            stage: Stage::Beginning,
            sent: 0,
            ascent: Ascent::new(),
            lost: 0,
        }
    }

    /// Whether it has ended since a transaction was lost again and again.
    pub fn is_lost(&self) -> bool
        ensures { result ≡ nat_le 8 self.now.lost }
    {
        self.lost >= LOST
    }

    /// The frame that is to be put next; None once it has ended.
    pub fn put(&self) -> Option<Put>
        ensures { result ≡ erasing_next self.now }
    {
        let frame = frame_at(&self.stage, self.sent)?;
        let priority = if self.sent == 0 {
            Priority::FIRST
        } else {
            Priority::LATER
        };
        Some(Put {
            priority,
            frame,
            half: half_at(&self.stage, self.sent),
        })
    }

    /// The transaction is over.
    fn finished(&self, heard: Answer) -> Eraser
        ensures { result ≡ finished self.now heard }
    {
        let ascent = ascent_after(&self.stage, &self.ascent, heard);
        Eraser {
            stage: stage_after(&self.stage, &ascent, heard),
            sent: 0,
            ascent,
            lost: 0,
        }
    }

    /// A frame was sent, and this was heard after it.
    fn heard(&mut self, heard: Answer)
        ensures { self.new ≡ heard_once self.old heard }
    {
        let next = self.sent.saturating_add(1);
        match frame_at(&self.stage, next) {
            Some(_) => self.sent = next,
            None => *self = self.finished(heard),
        }
    }

    /// A frame was lost: the transaction begins again.
    fn lose(&mut self)
        ensures { self.new ≡ lost_once self.old }
    {
        self.sent = 0;
        self.lost = self.lost.saturating_add(1);
        if self.lost >= LOST {
            self.stage = Stage::Ended;
        }
    }

    /// It is told what came of the frame that was put.
    pub fn told(&mut self, told: Input)
        ensures { self.new ≡ erasing_told self.old told }
    {
        match told {
            Input::Heard(heard) => self.heard(heard),
            Input::Start
            | Input::Survey
            | Input::Destroyed
            | Input::Lapsed
            | Input::Committed
            | Input::CommitFailed => self.lose(),
        }
    }
}
