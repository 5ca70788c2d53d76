//! The moments of a roll call, which tells whether a survey has ended; and what becomes of gear that cannot be
//! addressed.

ghost use Rattle.std.specs.Prelude.{◌≡◌, true, false};
ghost use Rattle.dali_controller.specs.declared.leg.Leg.TheVariants as leg;
ghost use Rattle.dali_controller.specs.declared.way.Way.TheVariants as way;

use crate::leg::Leg;
use crate::moments::is_yes;
use crate::purpose::Purpose;
use crate::state::State;
use crate::surveying::least_open;
use crate::unfinished::next_unfinished;
use dali_frame::{Answer, SearchAddress};
use dali_script::{End, Order, Records};

/// How often gear draw new random addresses in a survey, at the most.
const DRAWS: u8 = 3;

/// How often a survey asks short addresses again because the block is full, at the most.
const ASKINGS: u8 = 6;

/// The search address before gear draw: `FFFExx`, of which the last byte is not sent, so that the transaction has eight
/// frames. Gear that never drew, whose random address is `FFFFFF`, don't answer there.
const BEFORE_DRAW: SearchAddress = SearchAddress {
    high: 0xFF,
    middle: 0xFE,
    low: 0xFE,
};

impl State {
    ghost use Rattle.dali_controller.specs.States.{machine_with, course_of};
    ghost use Rattle.dali_controller.specs.Legs.{ascent_on};
    ghost use Rattle.dali_controller.specs.Moments.{Begun};
    ghost use Rattle.dali_controller.specs.Course.{calling};
    ghost use Rattle.dali_controller.specs.Next.{called_in, has_open, may_draw, nobody_left};
    ghost use Rattle.dali_controller.specs.Next.{blocked, ungiven, undrawn, full, asks_again, called_to};

    /// The roll call: one COMPARE, two if the first is silent, that each gear without short address answers.
    pub(crate) fn call(&mut self, kept: &Records<'_>) -> Order
        requires hunting { self.old.leg ≡ leg.Hunting (ascent_on self.old.leg) }

        ensures { Begun (machine_with self.old kept.now) (calling (course_of self.old))
            result (machine_with self.new kept.now) }
    {
        self.begin(kept, Purpose::Calling, SearchAddress::MASK)
    }

    /// A roll call was answered, or was silent twice.
    pub(crate) fn called(&mut self, kept: &Records<'_>, heard: Answer) -> Order
        requires hunting { self.old.leg ≡ leg.Hunting (ascent_on self.old.leg) }

        ensures { Begun (machine_with self.old kept.now) (called_in (machine_with self.old kept.now) heard)
            result (machine_with self.new kept.now) }
    {
        if is_yes(heard) {
            self.answered_call(kept)
        } else {
            self.silent_call(kept)
        }
    }

    /// A roll call was silent: the second in a row ends the survey.
    fn silent_call(&mut self, kept: &Records<'_>) -> Order
        requires hunting { self.old.leg ≡ leg.Hunting (ascent_on self.old.leg) }

        ensures { Begun (machine_with self.old kept.now)
            (called_to (machine_with self.old kept.now) false (course_of self.old))
            result (machine_with self.new kept.now) }
    {
        if self.tally.is_silent {
            self.close(kept, End::AllFound)
        } else {
            self.tally.note_silence();
            self.call(kept)
        }
    }

    /// Some gear answered a roll call.
    fn answered_call(&mut self, kept: &Records<'_>) -> Order
        requires hunting { self.old.leg ≡ leg.Hunting (ascent_on self.old.leg) }

        ensures { Begun (machine_with self.old kept.now)
            (called_to (machine_with self.old kept.now) true (course_of self.old))
            result (machine_with self.new kept.now) }
    {
        if self.tally.is_blocked() {
            self.blocked(kept)
        } else {
            self.tally.note_call();
            self.hunt_first(kept)
        }
    }

    /// All who were found since a visit succeeded last were passed over: gear draw new random addresses for the last
    /// time, or it gives up.
    fn blocked(&mut self, kept: &Records<'_>) -> Order
        requires hunting { self.old.leg ≡ leg.Hunting (ascent_on self.old.leg) }

        ensures { Begun (machine_with self.old kept.now) (blocked (machine_with self.old kept.now))
            result (machine_with self.new kept.now) }
    {
        if self.may_draw(kept) {
            self.tally.note_last_draw();
            self.open(kept)
        } else {
            self.close(kept, End::GaveUp)
        }
    }

    /// Whether an address is open.
    fn has_open(&self, kept: &Records<'_>) -> bool
        ensures { result ≡ has_open (machine_with self.now kept.now) }
    {
        least_open(kept, self.heard).is_some()
    }

    /// Whether gear may draw new random addresses: an address is open, and they drew less than three times.
    fn may_draw(&self, kept: &Records<'_>) -> bool
        ensures { result ≡ may_draw (machine_with self.now kept.now) }
    {
        self.tally.draws < DRAWS && self.has_open(kept)
    }

    /// No gear is left in a hunt. If it found none, gear was heard in the roll call that never drew a random
    /// address.
    pub(crate) fn nobody_left(&mut self, kept: &Records<'_>, found: u8) -> Order
        requires hunting { self.old.leg ≡ leg.Hunting (ascent_on self.old.leg) }
        requires found { found ≡ (ascent_on self.old.leg).found }

        ensures { Begun (machine_with self.old kept.now)
            (nobody_left (machine_with self.old kept.now) (course_of self.old))
            result (machine_with self.new kept.now) }
    {
        if found == 0 {
            self.undrawn(kept)
        } else {
            self.call(kept)
        }
    }

    /// Some gear never drew a random address. If a roll call heard gear since they were to draw for the last time, it
    /// gives up.
    fn undrawn(&mut self, kept: &Records<'_>) -> Order
        requires hunting { self.old.leg ≡ leg.Hunting (ascent_on self.old.leg) }

        ensures { Begun (machine_with self.old kept.now)
            (undrawn (machine_with self.old kept.now) (course_of self.old))
            result (machine_with self.new kept.now) }
    {
        if !self.has_open(kept) {
            self.full(kept)
        } else if self.tally.draws < DRAWS {
            self.tally.note_draw();
            self.begin(kept, Purpose::Drawing, BEFORE_DRAW)
        } else if self.tally.is_heard {
            self.close(kept, End::GaveUp)
        } else {
            self.call(kept)
        }
    }

    /// No address can be given to gear that answered MASK: gear draw new random addresses, or the block is full.
    pub(crate) fn ungiven(&mut self, kept: &Records<'_>) -> Order
        requires hunting { self.old.leg ≡ leg.Hunting (ascent_on self.old.leg) }

        ensures { Begun (machine_with self.old kept.now) (ungiven (machine_with self.old kept.now) way.Surveying)
            result (machine_with self.new kept.now) }
    {
        if self.may_draw(kept) {
            self.tally.note_draw();
            self.open(kept)
        } else {
            self.full(kept)
        }
    }

    /// Whether short addresses are asked again because no address can be given. Once a visit failed, the gear of a
    /// reservation that is unfinished may have got another address meanwhile. So it is asked again, six times at most.
    fn asks_again(&self, kept: &Records<'_>) -> bool
        ensures { result ≡ asks_again (machine_with self.now kept.now) }
    {
        self.tally.askings < ASKINGS && self.tally.is_missed && next_unfinished(kept, 0).is_some()
    }

    /// No address can be given.
    pub(crate) fn full(&mut self, kept: &Records<'_>) -> Order
        requires hunting { self.old.leg ≡ leg.Hunting (ascent_on self.old.leg) }

        ensures { Begun (machine_with self.old kept.now)
            (full (machine_with self.old kept.now) (course_of self.old)) result (machine_with self.new kept.now) }
    {
        if self.asks_again(kept) {
            self.tally.note_asking();
            self.leg = Leg::Asking {
                from: 0,
                silences: 0,
            };
            self.ask_or_call(kept, 0, 0)
        } else {
            self.close(kept, End::BlockFull)
        }
    }
}
