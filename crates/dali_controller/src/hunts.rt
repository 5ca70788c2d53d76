//! The moments of a hunt: question after question in one transaction, as long as it has room; and which gear it leads
//! to in vain.

ghost use Rattle.std.specs.Prelude.{◌≡◌, Some, None};
ghost use Rattle.dali_frame.specs.declared.numbers.SearchAddress.{SearchAddress};
ghost use Rattle.dali_frame.specs.Random.{value_of};
ghost use Rattle.dali_script.specs.declared.stage.Stage.TheVariants as stage;
ghost use Rattle.dali_controller.specs.declared.purpose.Purpose.TheVariants as purpose;
ghost use Rattle.dali_controller.specs.declared.way.Way.TheVariants as way;
ghost use Rattle.dali_controller.specs.declared.leg.Leg.TheVariants as leg;
ghost use Rattle.dali_search.specs.declared.step.Step.TheVariants as search;

use crate::leg::Leg;
use crate::moments::is_yes;
use crate::purpose::{Purpose, bytes_to_send};
use crate::state::State;
use dali_frame::{Answer, Random24, SearchAddress};
use dali_script::{Order, Records};
use dali_search::{Ascent, Step};

impl State {
    ghost use Rattle.dali_controller.specs.States.{machine_with, course_of};
    ghost use Rattle.dali_controller.specs.Moments.{IsHeard, IsMoment, Begun, AsksNext};
    ghost use Rattle.dali_controller.specs.Course.{turn_of, hunting, hunting_first, hunting_on, hunting_above};
    ghost use Rattle.dali_controller.specs.Course.{passing_over};
    ghost use Rattle.dali_controller.specs.Next.{next_course, question, beginning, silenced_on, hunted_in};
    ghost use Rattle.dali_controller.specs.Legs.{ascent_on};
    ghost use Rattle.dali_search.specs.Ascending.{leads_to, asked_next};

    /// The transaction that asks under the number of the search that goes up.
    pub(crate) fn hunt(&mut self, kept: &Records<'_>, number: Random24) -> Order
        requires hunting { self.old.leg ≡ leg.Hunting (ascent_on self.old.leg) }
        requires running { leads_to (ascent_on self.old.leg) ≡ search.Again }
        requires asked { number ≡ asked_next (ascent_on self.old.leg) }

        ensures { Begun (machine_with self.old kept.now) (hunting (course_of self.old))
            result (machine_with self.new kept.now) }
    {
        self.begin(kept, Purpose::Hunting, SearchAddress::of(number))
    }

    /// A search that has found no gear.
    pub(crate) fn hunt_first(&mut self, kept: &Records<'_>) -> Order
        requires hunting { self.old.leg ≡ leg.Hunting (ascent_on self.old.leg) }

        ensures { Begun (machine_with self.old kept.now) (hunting_first (course_of self.old))
            result (machine_with self.new kept.now) }
    {
        let ascent = Ascent::new();
        let number = ascent.probe();
        self.leg = Leg::Hunting(ascent);
        self.hunt(kept, number)
    }

    /// The search goes on above the gear that it found, which was withdrawn with a short address.
    pub(crate) fn hunt_on(&mut self, kept: &Records<'_>) -> Order
        requires hunting { self.old.leg ≡ leg.Hunting (ascent_on self.old.leg) }

        ensures { Begun (machine_with self.old kept.now) (hunting_on (course_of self.old))
            result (machine_with self.new kept.now) }
    {
        self.tally.note_served();
        self.hunt_above(kept)
    }

    /// The search goes on above the gear that it found.
    pub(crate) fn hunt_above(&mut self, kept: &Records<'_>) -> Order
        requires hunting { self.old.leg ≡ leg.Hunting (ascent_on self.old.leg) }

        ensures { Begun (machine_with self.old kept.now) (hunting_above (course_of self.old))
            result (machine_with self.new kept.now) }
    {
        let Leg::Hunting(ascent) = &mut self.leg else {
            // It is required that the leg is a hunt.
            unreachable!()
        };
        ascent.go_on();
        let number = ascent.probe();
        self.hunt(kept, number)
    }

    /// The visit of a number failed: the search begins anew, and if it leads to that number again, and in vain, the
    /// number is passed over.
    pub(crate) fn missed(&mut self, kept: &Records<'_>) -> Order
        requires hunting { self.old.leg ≡ leg.Hunting (ascent_on self.old.leg) }

        ensures { Begun (machine_with self.old kept.now)
            (silenced_on (machine_with self.old kept.now) way.Surveying) result (machine_with self.new kept.now) }
    {
        let random = self.number.value();
        if self.tally.is_failed(random) {
            return self.pass_over(kept, random);
        }
        self.tally.note_miss(random);
        let Leg::Hunting(ascent) = &mut self.leg else {
            // It is required that the leg is a hunt.
            unreachable!()
        };
        ascent.begin_anew();
        let number = ascent.probe();
        self.hunt(kept, number)
    }

    /// The transaction that takes the gear at this number out of the search, without a short address.
    fn pass_over(&mut self, kept: &Records<'_>, random: Random24) -> Order
        requires hunting { self.old.leg ≡ leg.Hunting (ascent_on self.old.leg) }
        requires number { random ≡ value_of self.old.number }

        ensures { Begun (machine_with self.old kept.now) (passing_over (course_of self.old))
            result (machine_with self.new kept.now) }
    {
        self.tally.note_passed(random);
        let number = self.number;
        self.begin(kept, Purpose::PassingOver, number)
    }

    /// The gear at a number was taken out of the search, without a short address.
    pub(crate) fn passed_over(&mut self, kept: &Records<'_>) -> Order
        requires { (number : SearchAddress) × IsHeard (machine_with self.old kept.now) (stage.PassedOver number) }

        ensures { IsMoment (machine_with self.old kept.now) result (machine_with self.new kept.now) }
    {
        self.hunt_above(kept)
    }

    /// COMPARE was sent in a hunt or a roll call, and this was heard; so many frames may follow.
    pub(crate) fn compared(
        &mut self,
        kept: &Records<'_>,
        sent: SearchAddress,
        last: Option<Answer>,
        left: u8,
    ) -> Order
        requires heard { IsHeard (machine_with self.old kept.now) (stage.Hunted sent last left) }
        requires over { turn_of self.old.purpose self.old.number (stage.Hunted sent last left) ≡ None }

        ensures hunted { self.old.purpose ≡ purpose.Hunting
            → result ≡ question (next_course (machine_with self.old kept.now)) sent left }
        ensures called { self.old.purpose ≡ purpose.Calling
            → result ≡ beginning (next_course (machine_with self.old kept.now)) }
        ensures moment { IsMoment (machine_with self.old kept.now) result (machine_with self.new kept.now) }
    {
        match (self.purpose, last) {
            (Purpose::Hunting, Some(heard)) => self.answered(kept, sent, heard, left),
            (Purpose::Calling, Some(heard)) => self.called(kept, heard),
            // No other purpose has this stage. If COMPARE was not sent last, the turn is not over.
            _ => unreachable!(),
        }
    }

    /// A question of a hunt was answered so.
    fn answered(
        &mut self,
        kept: &Records<'_>,
        sent: SearchAddress,
        heard: Answer,
        left: u8,
    ) -> Order
        requires hunting { self.old.leg ≡ leg.Hunting (ascent_on self.old.leg) }
        requires asked { self.old.purpose ≡ purpose.Hunting }
        requires running { leads_to (ascent_on self.old.leg) ≡ search.Again }

        ensures { AsksNext (machine_with self.old kept.now) (hunted_in (machine_with self.old kept.now) heard)
            sent left result (machine_with self.new kept.now) }
    {
        let Leg::Hunting(ascent) = &mut self.leg else {
            // It is required that the leg is a hunt.
            unreachable!()
        };
        match ascent.answer(is_yes(heard)) {
            Step::Again => {
                let number = ascent.probe();
                self.ask_next(kept, number, sent, left)
            }
            Step::Found(found) => self.visit(kept, found),
            Step::Nobody => {
                let found = ascent.found();
                self.nobody_left(kept, found)
            }
        }
    }

    /// The next question of a hunt: in the transaction that runs, if that has room for it.
    fn ask_next(
        &mut self,
        kept: &Records<'_>,
        random: Random24,
        sent: SearchAddress,
        left: u8,
    ) -> Order
        requires hunting { self.old.leg ≡ leg.Hunting (ascent_on self.old.leg) }
        requires running { leads_to (ascent_on self.old.leg) ≡ search.Again }
        requires asked { random ≡ asked_next (ascent_on self.old.leg) }
        requires runs { self.old.purpose ≡ purpose.Hunting }

        ensures { AsksNext (machine_with self.old kept.now) (hunting (course_of self.old)) sent left result
            (machine_with self.new kept.now) }
    {
        let number = SearchAddress::of(random);
        if bytes_to_send(number, sent) < left {
            self.ask_on(kept, number, sent)
        } else {
            self.hunt(kept, random)
        }
    }
}
