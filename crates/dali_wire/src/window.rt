ghost use Rattle.std.specs.Prelude.{◌≡◌, ◌<◌, ◌&&◌, ◌||◌, not, nat_lt, Some, IsSome};
ghost use Rattle.dali_wire.specs.Reception.{frame_of, receiver_at, told_of};
ghost use Rattle.dali_wire.specs.Windows.{heard_after, heard_beside, passed, answer_at, window_after};
ghost use Rattle.dali_wire.specs.Windows.{window_at, window_at_first};

use crate::receiver::{LEAST_STOP, Reading, Receiver, is_backward};
use dali_frame::Answer;

/// The time of a backward frame: it begins so many µs after the last edge of the forward frame, as a receiver takes it.
const LEAST_BEGIN: u32 = 2400;

const MOST_BEGIN: u32 = 12400;

/// A low on a bus at rest that is shorter than this, in µs, is a pulse: less than a third of the least half bit that a
/// receiver takes, so a low that a control gear sent, even one that reaches the pins much too short, is none.
const PULSE: u32 = 100;

/// The time in µs after which the bus is given up, since it has not come to rest.
const GIVEN_UP: u32 = 50000;

/// What is heard after a forward frame. It begins with the last edge of that frame, as its sender knows it.
#[derive(Clone, Copy, Debug, PartialEq, Eq)]
pub struct Window {
    /// Reads the edges that come after the forward frame.
    pub receiver: Receiver,
    /// How many µs passed from the last edge of the forward frame to the last edge, at most `u32::MAX`.
    pub elapsed: u32,
    /// What was heard so far.
    pub heard: Answer,
    /// Whether the receiver has passed over a low.
    pub has_pulse: bool,
}

/// What was heard, with what a stop condition has ended: these bits, which began so many µs after the forward frame.
fn with(heard: Answer, bits: u32, begun: u32) -> Answer
    ensures { result ≡ heard_after heard (Some (record { frame = frame_of bits; lasted = 0; since = 0 })) begun }
{
    let is_answer = is_backward(bits) && LEAST_BEGIN <= begun && begun <= MOST_BEGIN;
    match heard {
        Answer::Silence if is_answer => Answer::Byte((bits % 256) as u8),
        Answer::Silence | Answer::Byte(_) | Answer::Damaged => Answer::Damaged,
    }
}

impl Window {
    /// A window at the last edge of a forward frame.
    pub fn new() -> Window
        ensures { result ≡ window_at_first }
    {
        Window {
            receiver: Receiver::new(),
            elapsed: 0,
            heard: Answer::Silence,
            has_pulse: false,
        }
    }

    /// What has ended by now, so long after the last edge.
    fn rest(&mut self, since: u32, now: u32)
        ensures { self.new ≡ record self.old {
          receiver = receiver_at self.old.receiver since;
          heard = heard_after self.old.heard (told_of self.old.receiver since) now;
        } }
    {
        if self.receiver.is_low || since < LEAST_STOP {
            return;
        }
        let begun = now
            .saturating_sub(since)
            .saturating_sub(self.receiver.lasted);
        match self.receiver.reading {
            Reading::Idle => {}
            Reading::First => self.receiver.reading = Reading::Idle,
            Reading::Between(bits) | Reading::Middle(bits) => {
                self.heard = with(self.heard, bits, begun);
                self.receiver.reading = Reading::Idle;
            }
            Reading::Spoilt => {
                self.heard = Answer::Damaged;
                self.receiver.reading = Reading::Idle;
            }
        }
    }

    /// Whether an edge may be the last one of the forward frame, told late: the bus is high before and after it, no low
    /// was told before, and no backward frame may have begun.
    fn is_echo(&self, was_low: bool, is_low: bool) -> bool
        ensures { result ≡ (not was_low && not is_low && nat_lt self.now.elapsed 2400 && not self.now.has_pulse) }
    {
        !was_low && !is_low && self.elapsed < LEAST_BEGIN && !self.has_pulse
    }

    /// An edge after which the receiver is at rest. It has passed over a low, which damages what is heard but if it is
    /// the first pulse; or the edge is an echo.
    fn pass_over(&mut self, is_echo: bool, is_pulse: bool)
        ensures { self.new ≡ record self.old {
          heard = heard_beside (not is_echo) is_pulse self.old.has_pulse self.old.heard;
          has_pulse = self.old.has_pulse || not is_echo;
        } }
    {
        if is_echo {
            return;
        }
        if self.has_pulse || !is_pulse {
            self.heard = Answer::Damaged;
        }
        self.has_pulse = true;
    }

    /// An edge, after which the bus is low or high, so many µs after the last one; the first one after so many µs since
    /// the last edge of the forward frame. An echo of that edge changes nothing.
    ///
    /// A low that the receiver passes over damages what is heard, but for one pulse.
    pub fn edge(&mut self, is_low: bool, since: u32)
        ensures { self.new ≡ window_after self.old is_low since }
    {
        let now = self.elapsed.saturating_add(since);
        self.rest(since, now);
        let was_low = self.receiver.is_low;
        self.receiver.turn(is_low, since);
        self.elapsed = now;
        if matches!(self.receiver.reading, Reading::Idle) {
            let is_echo = self.is_echo(was_low, is_low);
            self.pass_over(is_echo, was_low && since < PULSE);
        }
    }

    /// Time passes: so many µs have passed since the last edge. Tells what was heard once the window is over.
    pub fn time(&mut self, since: u32) -> Option<Answer>
        ensures window { self.new ≡ window_at self.old since }
        ensures told { result ≡ answer_at self.new (passed self.old since) }
        ensures ends { 50000 < passed self.old since → IsSome result }
    {
        let now = self.elapsed.saturating_add(since);
        self.rest(since, now);
        match self.receiver.reading {
            Reading::Idle if now > MOST_BEGIN => Some(self.heard),
            _ if now > GIVEN_UP => Some(Answer::Damaged),
            Reading::Idle
            | Reading::First
            | Reading::Between(_)
            | Reading::Middle(_)
            | Reading::Spoilt => None,
        }
    }
}
