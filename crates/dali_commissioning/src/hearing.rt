//! What was heard of a short address over several questions, and whether several gear have answered.

ghost use Rattle.std.specs.Prelude.{◌≡◌, ◌<◌};
ghost use Rattle.dali_commissioning.specs.Census.{byte_unheard, or_first, is_another, byte_after, nothing_heard};
ghost use Rattle.dali_commissioning.specs.Census.{heard_after, are_two, is_damaged, are_damaged, unless_told, judged};

use crate::census::{Answers, Reply, joined, reply_of};
use dali_frame::Answer;

/// How often one byte must be damaged so that several gear answer: each time that an unclear address is asked.
const DAMAGED: u8 = 9;

/// What was heard of one byte of a random address.
#[derive(Clone, Copy)]
pub struct OneByte {
    /// The byte that was told first.
    pub byte: Option<u8>,
    /// Whether another one was told too.
    pub differs: bool,
    /// How often it was damaged.
    pub damaged: u8,
}

/// The byte that was told first.
fn or_first(byte: Option<u8>, told: u8) -> u8
    ensures { result ≡ or_first byte told }
{
    match byte {
        Some(byte) => byte,
        None => told,
    }
}

fn is_another(byte: Option<u8>, told: u8) -> bool
    ensures { result ≡ is_another byte told }
{
    match byte {
        Some(byte) => byte != told,
        None => false,
    }
}

impl OneByte {
    fn unheard() -> OneByte
        ensures { result ≡ byte_unheard }
    {
        OneByte {
            byte: None,
            differs: false,
            damaged: 0,
        }
    }

    fn after(&self, heard: Answer) -> OneByte
        ensures { result ≡ byte_after self.now heard }
    {
        match heard {
            Answer::Silence => *self,
            Answer::Byte(told) => OneByte {
                byte: Some(or_first(self.byte, told)),
                differs: self.differs || is_another(self.byte, told),
                damaged: self.damaged,
            },
            Answer::Damaged => OneByte {
                damaged: self.damaged.saturating_add(1),
                ..*self
            },
        }
    }

    fn is_damaged(&self) -> bool
        ensures { result ≡ is_damaged self.now }
    {
        self.damaged >= DAMAGED
    }
}

/// What was heard of a short address.
#[derive(Clone, Copy)]
pub struct Hearing {
    /// How many questions were answered whole.
    pub asked: u8,
    /// What they tell together.
    pub reply: Reply,
    pub high: OneByte,
    pub middle: OneByte,
    pub low: OneByte,
}

impl Hearing {
    pub(crate) fn nothing() -> Hearing
        ensures { result ≡ nothing_heard }
    {
        Hearing {
            asked: 0,
            reply: Reply::Noise,
            high: OneByte::unheard(),
            middle: OneByte::unheard(),
            low: OneByte::unheard(),
        }
    }

    /// With one more question, if it was answered whole.
    pub(crate) fn after(&self, answers: Option<Answers>) -> Hearing
        requires { self.now.asked < 255 }
        ensures { result ≡ heard_after self.now answers }
    {
        match answers {
            Some(it) => Hearing {
                asked: self.asked + 1,
                reply: joined(self.reply, reply_of(it.high, it.middle, it.low)),
                high: self.high.after(it.high),
                middle: self.middle.after(it.middle),
                low: self.low.after(it.low),
            },
            None => *self,
        }
    }

    fn are_two(&self) -> bool
        ensures { result ≡ are_two self.now }
    {
        self.high.differs || self.middle.differs || self.low.differs
    }

    fn are_damaged(&self) -> bool
        ensures { result ≡ are_damaged self.now }
    {
        self.high.is_damaged() || self.middle.is_damaged() || self.low.is_damaged()
    }

    /// What it tells: also that several gear answer together, without a number.
    pub(crate) fn judged(&self) -> Reply
        ensures { result ≡ judged self.now }
    {
        if self.are_two() {
            Reply::Several
        } else {
            unless_told(self.are_damaged(), self.reply)
        }
    }
}

fn unless_told(are_damaged: bool, reply: Reply) -> Reply
    ensures { result ≡ unless_told are_damaged reply }
{
    match reply {
        Reply::Random(_) => reply,
        Reply::Silence | Reply::Noise | Reply::Unclear | Reply::Several => {
            if are_damaged { Reply::Several } else { reply }
        }
    }
}
