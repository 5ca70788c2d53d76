//! The moments of a visit: gear at a number is asked for its short address, and gets the one that is reserved for it.

ghost use Rattle.std.specs.Prelude.{◌≡◌, ◌<◌, true, false, Option, Some, None};
ghost use Rattle.dali_frame.specs.Random.{value_of, MASK24};
ghost use Rattle.dali_frame.specs.declared.numbers.SearchAddress.{SearchAddress};
ghost use Rattle.dali_special.specs.declared.command.Command.{Command};
ghost use Rattle.dali_script.specs.declared.stage.Stage.TheVariants as stage;
ghost use Rattle.dali_script.specs.Records.{Has, HasRandom, IsKept};
ghost use Rattle.dali_controller.specs.declared.leg.Leg.TheVariants as leg;

use crate::leg::Leg;
use crate::purpose::Purpose;
use crate::state::State;
use crate::surveying::{is_anothers, least_open};
use crate::unfinished::next_unfinished;
use crate::way::Way;
use dali_frame::{Random24, SearchAddress, Short};
use dali_script::{End, Order, Record, Records};
use dali_special::Command;

impl State {
    ghost use Rattle.dali_controller.specs.States.{machine_with, course_of};
    ghost use Rattle.dali_controller.specs.Legs.{is_searching, way_on};
    ghost use Rattle.dali_controller.specs.Moments.{IsHeard, IsMoment, Begun, IsFirstFree, IsUngiven};
    ghost use Rattle.dali_controller.specs.Whole.{IsVisitedOn};
    ghost use Rattle.dali_controller.specs.Course.{visiting, visit_or_opening, next_unfinished};
    ghost use Rattle.dali_controller.specs.Machine.{is_withheld};
    ghost use Rattle.dali_script.specs.declared.records.Record.TheVariants.{Reserve};

    /// Before the opening was complete: a visit to the next unfinished reservation, or the opening.
    pub(crate) fn visit_or_open(&mut self, kept: &Records<'_>, from: u8) -> Order
        requires revisiting { self.old.leg ≡ leg.Revisiting from }

        ensures { Begun (machine_with self.old kept.now)
            (visit_or_opening (course_of self.old) (next_unfinished kept.now from))
            result (machine_with self.new kept.now) }
    {
        match next_unfinished(kept, from) {
            Some((from, number)) => {
                self.leg = Leg::Revisiting { from };
                self.visit(kept, number)
            }
            None => self.open(kept),
        }
    }

    /// The transaction that asks the gear at a number for its short address.
    pub(crate) fn visit(&mut self, kept: &Records<'_>, number: Random24) -> Order
        requires drawn { number < MASK24 }
        requires may { IsVisitedOn (way_on self.old.leg) kept.now number (is_searching self.old.leg) }

        ensures { Begun (machine_with self.old kept.now) (visiting (course_of self.old) number)
            result (machine_with self.new kept.now) }
    {
        self.begin(kept, Purpose::Visiting, SearchAddress::of(number))
    }

    /// The gear at this number has no short address: it is programmed with the one that is reserved for it.
    pub(crate) fn unnamed(&mut self, kept: &Records<'_>, number: SearchAddress) -> Order
        requires { IsHeard (machine_with self.old kept.now) (stage.Unnamed number) }

        ensures { IsMoment (machine_with self.old kept.now) result (machine_with self.new kept.now) }
    {
        match kept.reserved_for(number.value()) {
            Some(short) => self.give(kept, number, short),
            None => self.reserve(kept, number),
        }
    }

    /// The gear at this number has no short address, and this one is reserved for it.
    fn give(&mut self, kept: &Records<'_>, number: SearchAddress, short: Short) -> Order
        requires heard { IsHeard (machine_with self.old kept.now) (stage.Unnamed number) }
        requires reserved { Has kept.now.reserved (short, value_of number) }
        requires kept { IsKept kept.now }

        ensures { IsMoment (machine_with self.old kept.now) result (machine_with self.new kept.now) }
    {
        if self.is_withheld(kept, short, number.value()) {
            self.leave(kept, number)
        } else {
            self.put(kept, Command::Program(Some(short)))
        }
    }

    /// Whether this address, which is reserved for a random address, is another gear's.
    pub(crate) fn is_withheld(&self, kept: &Records<'_>, address: Short, random: Random24) -> bool
        ensures { result ≡ is_withheld (machine_with self.now kept.now) address random }
    {
        match self.leg {
            Leg::Hunting(_) => is_anothers(kept, self.heard, address, random),
            Leg::Revisiting { .. } | Leg::Asking { .. } | Leg::Searching(_) => false,
        }
    }

    /// The gear at this number has no short address, and none is reserved for it.
    fn reserve(&mut self, kept: &Records<'_>, number: SearchAddress) -> Order
        requires heard { IsHeard (machine_with self.old kept.now) (stage.Unnamed number) }
        requires free { HasRandom kept.now.reserved (value_of number) → ⊥ }
        requires kept { IsKept kept.now }

        ensures { IsMoment (machine_with self.old kept.now) result (machine_with self.new kept.now) }
    {
        match self.first_free(kept) {
            Some(short) => self.commit(kept, Record::Reserve(short, number.value())),
            None => self.leave_over(kept, number),
        }
    }

    /// The address that is reserved next.
    fn first_free(&self, kept: &Records<'_>) -> Option<Short>
        ensures { IsFirstFree (way_on self.now.leg) kept.now self.now.heard result }
    {
        match self.leg.way() {
            Way::Fresh => kept.first_free(),
            Way::Surveying => least_open(kept, self.heard),
        }
    }

    /// The gear at this number has no short address, and none can be given to it.
    fn leave(&mut self, kept: &Records<'_>, number: SearchAddress) -> Order
        requires heard { IsHeard (machine_with self.old kept.now) (stage.Unnamed number) }
        requires opened { is_searching self.old.leg ≡ true }
        requires ungiven { IsUngiven (way_on self.old.leg) (machine_with self.old kept.now) number }

        ensures { IsMoment (machine_with self.old kept.now) result (machine_with self.new kept.now) }
    {
        match self.leg.way() {
            Way::Fresh => self.close(kept, End::BlockFull),
            Way::Surveying => self.ungiven(kept),
        }
    }

    /// The same, if no address is left.
    fn leave_over(&mut self, kept: &Records<'_>, number: SearchAddress) -> Order
        requires heard { IsHeard (machine_with self.old kept.now) (stage.Unnamed number) }
        requires opened { is_searching self.old.leg ≡ true }
        requires ungiven { IsUngiven (way_on self.old.leg) (machine_with self.old kept.now) number }
        requires none { IsFirstFree (way_on self.old.leg) kept.now self.old.heard None }

        ensures { IsMoment (machine_with self.old kept.now) result (machine_with self.new kept.now) }
    {
        match self.leg.way() {
            Way::Fresh => self.close(kept, End::BlockFull),
            Way::Surveying => self.full(kept),
        }
    }

    /// The gear at this number did not answer. In the visits before the opening it may be disabled, and have the short
    /// address that is reserved for it already: that is asked for its random address.
    pub(crate) fn unanswered(&mut self, kept: &Records<'_>, number: SearchAddress) -> Order
        requires { IsHeard (machine_with self.old kept.now) (stage.Unanswered number) }

        ensures { IsMoment (machine_with self.old kept.now) result (machine_with self.new kept.now) }
    {
        match kept.reserved_for(number.value()) {
            Some(short) if !self.leg.is_searching() => self.resolve(kept, short, number),
            _ => self.silenced(kept),
        }
    }

    /// The gear at this number has this short address, and was withdrawn.
    #[tactic(auto, using(crate::proofs::Settling::settles_withdrawn))]
    pub(crate) fn withdrawn(
        &mut self,
        kept: &Records<'_>,
        number: SearchAddress,
        short: Short,
    ) -> Order
        requires { IsHeard (machine_with self.old kept.now) (stage.Withdrawn number short) }

        ensures { IsMoment (machine_with self.old kept.now) result (machine_with self.new kept.now) }
    {
        self.settle(kept, short, number.value())
    }
}
