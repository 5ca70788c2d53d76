//! Whether a state is that of a machine between two inputs, with its records.

ghost use Rattle.std.specs.Prelude.{◌≡◌, ◌↔◌, ◌<◌, ◌⊎◌, true, false, Some, IsTrue};
ghost use Rattle.dali_special.specs.Command.{command_of};
ghost use Rattle.dali_script.specs.Records.{Fits, MayAdd, Has, HasRandom};
ghost use Rattle.dali_script.specs.Stages.{stage_of};
ghost use Rattle.dali_script.specs.declared.stage.Stage.TheVariants as stage;
ghost use Rattle.dali_controller.specs.declared.purpose.Purpose.TheVariants.{Opening, Resolving, Asking};
ghost use Rattle.dali_controller.specs.declared.way.Way.TheVariants.{Fresh};
ghost use Rattle.dali_controller.specs.Whole.{IsWithinSilence, IsMet};

use crate::leg::Leg;
use crate::moments::{TRIES, most_silent};
use crate::purpose::{Purpose, byte_to_send, bytes_to_send, call_turn};
use crate::state::State;
use crate::way::Way;
use dali_frame::{Answer, Forward, Random24, SearchAddress, Short};
use dali_script::{End, Order, Record, Records, Stage};
use dali_search::Step;
use dali_special::Command;

impl State {
    ghost use Rattle.dali_controller.specs.States.{machine_with};
    ghost use Rattle.dali_controller.specs.Legs.{way_on, is_searching, from_on, search_on, ascent_on};
    ghost use Rattle.dali_controller.specs.Course.{turn_of};
    ghost use Rattle.dali_controller.specs.Whole.{IsWhole, IsReady, Knows, Sends, IsChosen, AsksOn, IsVisitedOn};
    ghost use Rattle.dali_controller.specs.Whole.{IsStoredIn};

    /// Whether the last order is one that a machine gives in this state.
    pub fn is_whole(&self, kept: &Records<'_>) -> bool
        ensures { IsTrue result ↔ IsWhole (machine_with self.now kept.now) }
    {
        match self.last {
            None => self.is_ready(kept) && self.is_free() && self.is_unstarted(),
            Some(Order::Put(_, frame)) => self.is_ready(kept) && self.sends(kept, frame),
            Some(Order::Commit(added)) => {
                self.is_ready(kept)
                    && self.is_free()
                    && self.purpose.end().is_none()
                    && self.is_stored_in(&added)
                    && self.may_keep(kept, added)
            }
            Some(Order::Done(_) | Order::Halt(_)) => true,
        }
    }

    /// Whether its transaction is to be the opening, of a machine that is to be started.
    fn is_unstarted(&self) -> bool
        ensures { IsTrue result ↔ ((self.now.purpose ≡ Opening) × (way_on self.now.leg ≡ Fresh)
            × (from_on self.now.leg ≡ 0)) }
    {
        matches!(self.purpose, Purpose::Opening) && matches!(self.leg, Leg::Revisiting { from: 0 })
    }

    /// Whether no frame of a transaction was sent.
    fn is_free(&self) -> bool
        ensures { IsTrue result ↔ (stage_of self.now.trace ≡ stage.Free) }
    {
        matches!(self.trace.stage(), Stage::Free)
    }

    /// Whether a record may be kept as the next one.
    fn may_keep(&self, kept: &Records<'_>, added: Record) -> bool
        ensures { IsTrue result ↔ (Fits kept.now.block added × MayAdd kept.now added) }
    {
        kept.fits(&added) && kept.refusal(&added).is_none()
    }

    /// Whether its transaction is one that leads to the record.
    fn is_stored_in(&self, added: &Record) -> bool
        ensures { IsTrue result ↔ IsStoredIn added.now self.now.purpose }
    {
        match added {
            Record::Reserve(..) => matches!(self.purpose, Purpose::Visiting),
            Record::Enrol(..) | Record::Release(..) => true,
        }
    }

    fn is_ready(&self, kept: &Records<'_>) -> bool
        ensures { IsTrue result ↔ IsReady (machine_with self.now kept.now) }
    {
        self.tries < TRIES
            && is_within_silence(self.leg.way(), self.purpose, self.silent)
            && self.knows(kept)
    }

    /// Whether what is known while its transaction runs is so.
    fn knows(&self, kept: &Records<'_>) -> bool
        ensures { IsTrue result
            ↔ Knows (way_on self.now.leg) kept.now self.now.number (search_on self.now.leg)
            (ascent_on self.now.leg) (is_searching self.now.leg) self.now.purpose }
    {
        let number = self.number.value();
        let is_hunting = matches!(self.leg, Leg::Hunting(_));
        match self.purpose {
            Purpose::Opening => matches!(self.leg, Leg::Revisiting { .. } | Leg::Hunting(_)),
            Purpose::Calling => is_hunting && number == Random24::MASK,
            Purpose::Drawing | Purpose::PassingOver => is_hunting,
            Purpose::Probing => match &self.leg {
                Leg::Searching(search) => search.step() == Step::Again && number == search.probe(),
                Leg::Revisiting { .. } | Leg::Asking { .. } | Leg::Hunting(_) => false,
            },
            Purpose::Hunting => match &self.leg {
                Leg::Hunting(ascent) => ascent.step() == Step::Again && number == ascent.probe(),
                Leg::Revisiting { .. } | Leg::Asking { .. } | Leg::Searching(_) => false,
            },
            Purpose::Visiting => number < Random24::MASK && self.may_visit(kept, number),
            Purpose::Resolving(short) => {
                !self.leg.is_searching()
                    && number < Random24::MASK
                    && self.is_reserved(kept, short, number)
            }
            Purpose::Closing(_) => self.leg.is_searching(),
            Purpose::Asking(short) => {
                matches!(self.leg, Leg::Asking { .. }) && short.number() < 64
            }
        }
    }

    /// Whether gear at this number may be visited: in a search at each number, among the visits of Start at one for
    /// which an address is reserved, while short addresses are asked at none.
    fn may_visit(&self, kept: &Records<'_>, number: Random24) -> bool
        ensures { IsTrue result ↔ IsVisitedOn (way_on self.now.leg) kept.now number (is_searching self.now.leg) }
    {
        match self.leg {
            Leg::Searching(_) | Leg::Hunting(_) => true,
            Leg::Revisiting { .. } => self.is_visited(kept, number),
            Leg::Asking { .. } => false,
        }
    }

    /// Whether an address is reserved for a random address.
    fn is_visited(&self, kept: &Records<'_>, number: Random24) -> bool
        ensures { IsTrue result ↔ HasRandom kept.now.reserved number }
    {
        kept.reserved_for(number).is_some()
    }

    /// Whether this address is reserved for a random address.
    fn is_reserved(&self, kept: &Records<'_>, address: Short, number: Random24) -> bool
        ensures has { IsTrue result ↔ Has kept.now.reserved (address, number) }
        ensures small { address < 64 }
    {
        // For the prover: a short address is below 64.
        let _ = address.number();
        match kept.reserved_at(address) {
            Some(reserved) => reserved == number,
            None => false,
        }
    }

    /// Whether it is this frame that its transaction sends next.
    fn sends(&self, kept: &Records<'_>, frame: Forward) -> bool
        requires { IsReady (machine_with self.now kept.now) }
        ensures { IsTrue result ↔ Sends kept.now self.now.number self.now.purpose (stage_of self.now.trace)
            (command_of frame) }
    {
        // Short addresses that are reserved are short addresses.
        let _ = kept.block();
        let stage = self.trace.stage();
        let command = Command::read(frame);
        self.trace.allows_by(kept, frame) && self.chooses(&stage, command)
    }

    /// Whether it is this command that the transaction sends at a stage, if it may be sent there.
    fn chooses(&self, stage: &Stage, command: Command) -> bool
        ensures { IsTrue result ↔ IsChosen self.now.number self.now.purpose stage.now command }
    {
        match *stage {
            Stage::Free => command == self.purpose.first(self.number),
            Stage::Unnamed(number) => {
                matches!(self.purpose, Purpose::Visiting) && number == self.number
            }
            Stage::Hunted(sent, last, left) => self.asks(sent, last, left, command),
            _ => self.turns(stage, command),
        }
    }

    /// Whether a hunt or a roll call sends this command after those that have sent a search address, if so many
    /// frames may follow.
    fn asks(&self, sent: SearchAddress, last: Option<Answer>, left: u8, command: Command) -> bool
        ensures { IsTrue result ↔ AsksOn self.now.purpose self.now.number sent last left command }
    {
        match self.purpose {
            Purpose::Hunting => {
                command == byte_to_send(self.number, sent)
                    && bytes_to_send(self.number, sent) < left
            }
            Purpose::Calling => {
                let is_turn = match call_turn(last, left) {
                    Some(turn) => turn == command,
                    None => false,
                };
                is_turn && sent == self.number && left > 0
            }
            Purpose::Opening
            | Purpose::Probing
            | Purpose::Visiting
            | Purpose::Resolving(_)
            | Purpose::Closing(_)
            | Purpose::Asking(_)
            | Purpose::Drawing
            | Purpose::PassingOver => false,
        }
    }

    /// Whether the transaction sends this command at a stage past the first, but PROGRAM SHORT ADDRESS.
    fn turns(&self, stage: &Stage, command: Command) -> bool
        ensures { IsTrue result ↔ ((turn_of self.now.purpose self.now.number stage.now ≡ Some command)
            × IsMet stage.now self.now.purpose self.now.number) }
    {
        match self.purpose.turn(self.number, stage) {
            Some(turn) => turn == command && is_met(stage, self.purpose, self.number),
            None => false,
        }
    }
}

/// Whether the count of silent searches is below its limit, but for a close that was begun for it.
fn is_within_silence(way: Way, purpose: Purpose, silent: u8) -> bool
    ensures { IsTrue result ↔ IsWithinSilence way purpose silent }
{
    match purpose {
        Purpose::Closing(End::GaveUp) => silent <= most_silent(way),
        Purpose::Closing(_)
        | Purpose::Opening
        | Purpose::Probing
        | Purpose::Hunting
        | Purpose::Visiting
        | Purpose::Resolving(_)
        | Purpose::Asking(_)
        | Purpose::Calling
        | Purpose::Drawing
        | Purpose::PassingOver => silent < most_silent(way),
    }
}

/// Whether what was sent of the search address, or the short address that is asked, is the transaction's.
fn is_met(stage: &Stage, purpose: Purpose, number: SearchAddress) -> bool
    ensures { IsTrue result ↔ IsMet stage.now purpose number }
{
    match *stage {
        Stage::HighSent(high) | Stage::WokenHigh(high) => number.high == high,
        Stage::MiddleSent(high, middle) | Stage::WokenMiddle(high, middle) => {
            number.high == high && number.middle == middle
        }
        Stage::LowSent(high, low) | Stage::WokenLow(high, low) => {
            number.high == high && number.low == low
        }
        Stage::NumberSent(sent)
        | Stage::Hunted(sent, ..)
        | Stage::Probed(sent, _)
        | Stage::Found(sent, _)
        | Stage::Unnamed(sent)
        | Stage::Unanswered(sent)
        | Stage::Inconclusive(sent, _)
        | Stage::Programmed(sent, _)
        | Stage::Confirmed(sent, _)
        | Stage::Withdrawn(sent, _)
        | Stage::PassedOver(sent) => number == sent,
        Stage::HighAsked(asked, _) | Stage::MiddleAsked(asked, _) => asks(purpose, asked),
        _ => true,
    }
}

/// Whether the transaction asks the gear with a short address.
fn asks(purpose: Purpose, asked: Short) -> bool
    ensures { IsTrue result ↔ ((purpose ≡ Resolving asked) ⊎ (purpose ≡ Asking asked)) }
{
    match purpose {
        Purpose::Resolving(short) | Purpose::Asking(short) => short == asked,
        Purpose::Opening
        | Purpose::Probing
        | Purpose::Hunting
        | Purpose::Visiting
        | Purpose::Closing(_)
        | Purpose::Calling
        | Purpose::Drawing
        | Purpose::PassingOver => false,
    }
}
