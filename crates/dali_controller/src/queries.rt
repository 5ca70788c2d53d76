//! The moments of queries: the gear with a short address is asked for its random address.

ghost use Rattle.std.specs.Prelude.{◌≡◌, ◌↔◌, ℕ, ◌<◌, false, Option, Some, None, IsTrue};
ghost use Rattle.dali_frame.specs.Random.{value_of, MASK24};
ghost use Rattle.dali_frame.specs.declared.numbers.SearchAddress.{SearchAddress};
ghost use Rattle.dali_script.specs.declared.stage.Stage.TheVariants as stage;
ghost use Rattle.dali_script.specs.Records.{Has};
ghost use Rattle.dali_controller.specs.declared.purpose.Purpose.TheVariants as purpose;
ghost use Rattle.dali_controller.specs.declared.leg.Leg.TheVariants as leg;
ghost use Rattle.dali_controller.specs.declared.way.Way.TheVariants as way;

use crate::leg::Leg;
use crate::purpose::Purpose;
use crate::state::State;
use crate::surveying::next_asked;
use dali_frame::{Random24, SearchAddress, Short};
use dali_script::{Order, Records};
use dali_search::Ascent;

impl State {
    ghost use Rattle.dali_controller.specs.States.{machine_with, course_of};
    ghost use Rattle.dali_controller.specs.Legs.{is_searching, way_on};
    ghost use Rattle.dali_controller.specs.Moments.{IsHeard, IsMoment, Begun};
    ghost use Rattle.dali_controller.specs.Course.{resolving, turn_of, taking, ask_or_call, next_asked};
    ghost use Rattle.dali_controller.specs.Next.{next_course, beginning};
    ghost use Rattle.dali_controller.specs.Orders.{AfterFinding, IsSought};
    ghost use Rattle.dali_script.specs.Stages.{stage_of};

    /// In a survey: the next short address is asked, or the roll is called for the first time.
    pub(crate) fn ask_or_call(&mut self, kept: &Records<'_>, from: u8, silences: u8) -> Order
        requires asking { self.old.leg ≡ leg.Asking from silences }

        ensures { Begun (machine_with self.old kept.now)
            (ask_or_call (course_of self.old) (next_asked kept.now from))
            result (machine_with self.new kept.now) }
    {
        match next_asked(kept, from) {
            Some(short) => {
                let from = short.number() + 1;
                self.leg = Leg::Asking { from, silences };
                self.ask(kept, short)
            }
            None => {
                self.leg = Leg::Hunting(Ascent::new());
                self.call(kept)
            }
        }
    }

    /// The transaction that asks the gear with a short address for its random address.
    fn ask(&mut self, kept: &Records<'_>, short: Short) -> Order
        requires early { is_searching self.old.leg ≡ false }
        requires surveying { way_on self.old.leg ≡ way.Surveying }
        requires range { short < 64 }

        ensures { Begun (machine_with self.old kept.now)
            (taking (course_of self.old) (purpose.Asking short) self.old.number)
            result (machine_with self.new kept.now) }
    {
        let number = self.number;
        self.begin(kept, Purpose::Asking(short), number)
    }

    /// A short address was asked for the first byte of a random address, and no byte was heard. If it was silent, it
    /// is asked again, three times in all.
    pub(crate) fn asked_once(&mut self, kept: &Records<'_>) -> Order
        requires heard { (b : ℕ) × (high : Option ℕ)
            × IsHeard (machine_with self.old kept.now) (stage.HighAsked b high) }
        requires over { turn_of self.old.purpose self.old.number (stage_of self.old.trace) ≡ None }

        ensures { IsMoment (machine_with self.old kept.now) result (machine_with self.new kept.now) }
    {
        if self.leg.silences() == 0 {
            return self.go_on(kept);
        }
        let same = self.purpose;
        let number = self.number;
        self.begin(kept, same, number)
    }

    /// The second byte of a random address was not heard.
    pub(crate) fn unheard(&mut self, kept: &Records<'_>) -> Order
        requires heard { (b : ℕ) × (bytes : Option (ℕ × ℕ))
            × IsHeard (machine_with self.old kept.now) (stage.MiddleAsked b bytes) }
        requires over { turn_of self.old.purpose self.old.number (stage_of self.old.trace) ≡ None }

        ensures { IsMoment (machine_with self.old kept.now) result (machine_with self.new kept.now) }
    {
        self.go_on(kept)
    }

    /// The transaction that asks the gear with a short address for its random address.
    pub(crate) fn resolve(
        &mut self,
        kept: &Records<'_>,
        short: Short,
        number: SearchAddress,
    ) -> Order
        requires early { is_searching self.old.leg ≡ false }
        requires drawn { value_of number < MASK24 }
        requires short { short < 64 }
        requires reserved { Has kept.now.reserved (short, value_of number) }

        ensures { Begun (machine_with self.old kept.now) (resolving (course_of self.old) short number)
            result (machine_with self.new kept.now) }
    {
        self.begin(kept, Purpose::Resolving(short), number)
    }

    /// The gear with this short address told its random address, or one of the three bytes was not heard.
    #[tactic(auto, using(crate::proofs::Settling::settles_resolved))]
    pub(crate) fn resolved(
        &mut self,
        kept: &Records<'_>,
        short: Short,
        number: Option<Random24>,
    ) -> Order
        requires { IsHeard (machine_with self.old kept.now) (stage.Spelled short number) }

        ensures told { (n : ℕ) → number ≡ Some n → IsSought self.old.purpose self.old.number n
            → AfterFinding (machine_with self.old kept.now) short n result }
        ensures another { (n : ℕ) → number ≡ Some n → (IsSought self.old.purpose self.old.number n → ⊥)
            → result ≡ beginning (next_course (machine_with self.old kept.now)) }
        ensures moment { IsMoment (machine_with self.old kept.now) result (machine_with self.new kept.now) }
    {
        match number {
            Some(random) if self.seeks(random) => self.settle(kept, short, random),
            _ => self.untold(kept, short, number),
        }
    }

    /// The gear with this short address told no random address that its queries were for.
    fn untold(&mut self, kept: &Records<'_>, short: Short, number: Option<Random24>) -> Order
        requires { IsHeard (machine_with self.old kept.now) (stage.Spelled short number) }

        ensures starts { result ≡ beginning (next_course (machine_with self.old kept.now)) }
        ensures moment { IsMoment (machine_with self.old kept.now) result (machine_with self.new kept.now) }
    {
        self.go_on(kept)
    }

    /// Whether gear that told this random address is what its queries were for: in a survey any that gear draw.
    fn seeks(&self, random: Random24) -> bool
        ensures { IsTrue result ↔ IsSought self.now.purpose self.now.number random }
    {
        match self.purpose {
            Purpose::Asking(_) => random < Random24::MASK,
            Purpose::Opening
            | Purpose::Probing
            | Purpose::Hunting
            | Purpose::Visiting
            | Purpose::Resolving(_)
            | Purpose::Closing(_)
            | Purpose::Calling
            | Purpose::Drawing
            | Purpose::PassingOver => random == self.number.value(),
        }
    }
}
