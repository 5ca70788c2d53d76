//! The moments of a search.

ghost use Rattle.std.specs.Prelude.{◌≡◌, ◌⊎◌, true};
ghost use Rattle.dali_frame.specs.declared.numbers.SearchAddress.{SearchAddress};
ghost use Rattle.dali_frame.specs.declared.frames.Answer.{Answer};
ghost use Rattle.dali_script.specs.declared.stage.Stage.{Stage};
ghost use Rattle.dali_script.specs.declared.stage.Stage.TheVariants as stage;
ghost use Rattle.dali_controller.specs.declared.way.Way.TheVariants as way;
ghost use Rattle.dali_search.specs.declared.step.Step.TheVariants as search;
ghost use Rattle.dali_controller.specs.Course.{is_yes};

use crate::leg::Leg;
use crate::moments::is_yes;
use crate::purpose::Purpose;
use crate::state::State;
use crate::way::Way;
use dali_frame::{Answer, Random24, SearchAddress};
use dali_script::{End, Order, Records};
use dali_search::{Search, Step};

impl State {
    ghost use Rattle.dali_controller.specs.States.{machine_with, course_of};
    ghost use Rattle.dali_controller.specs.Legs.{is_searching, way_on, search_on};
    ghost use Rattle.dali_controller.specs.Moments.{IsHeard, IsMoment, Begun};
    ghost use Rattle.dali_controller.specs.Course.{probing, searching_anew};

    /// An opening is complete, or no gear draws: gear are searched from now on, in a survey with a search that has
    /// found none.
    pub(crate) fn search_first(&mut self, kept: &Records<'_>) -> Order
        requires heard { (s : Stage) × IsHeard (machine_with self.old kept.now) s
            × ((s ≡ stage.Opened) ⊎ (s ≡ stage.DrawBarred)) }

        ensures { IsMoment (machine_with self.old kept.now) result (machine_with self.new kept.now) }
    {
        match self.leg.way() {
            Way::Fresh => self.search_anew(kept),
            Way::Surveying => self.hunt_first(kept),
        }
    }

    /// After a start: a new search.
    pub(crate) fn search_anew(&mut self, kept: &Records<'_>) -> Order
        requires fresh { way_on self.old.leg ≡ way.Fresh }

        ensures { Begun (machine_with self.old kept.now) (searching_anew (course_of self.old))
            result (machine_with self.new kept.now) }
    {
        let search = Search::new();
        let number = search.probe();
        self.leg = Leg::Searching(search);
        self.probe(kept, number)
    }

    /// The transaction that asks whether some gear is at most the search's number.
    pub(crate) fn probe(&mut self, kept: &Records<'_>, number: Random24) -> Order
        requires opened { is_searching self.old.leg ≡ true }
        requires fresh { way_on self.old.leg ≡ way.Fresh }
        requires running { (search_on self.old.leg).step ≡ search.Again }
        requires asked { number ≡ (search_on self.old.leg).probe }

        ensures { Begun (machine_with self.old kept.now) (probing (course_of self.old))
            result (machine_with self.new kept.now) }
    {
        self.begin(kept, Purpose::Probing, SearchAddress::of(number))
    }

    /// COMPARE was sent, and this was heard.
    #[inline(always)]
    pub(crate) fn probed(&mut self, kept: &Records<'_>, heard: Answer) -> Order
        requires { (number : SearchAddress) × IsHeard (machine_with self.old kept.now) (stage.Probed number heard) }

        ensures { IsMoment (machine_with self.old kept.now) result (machine_with self.new kept.now) }
    {
        let Leg::Searching(search) = &mut self.leg else {
            // Only a search probes.
            unreachable!()
        };
        match search.answer(is_yes(heard)) {
            Step::Again => {
                let number = search.probe();
                self.probe(kept, number)
            }
            Step::Found(found) => self.visit(kept, found),
            Step::Nobody => self.close(kept, End::AllFound),
        }
    }
}
