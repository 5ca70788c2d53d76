ghost use Rattle.std.specs.Prelude.{◌≡◌, ◌⊎◌, ℕ, ◌<◌, true, false, Option, Some, None, ◌++◌, ◌∷◌, []};
ghost use Rattle.dali_frame.specs.Random.{MASK24};
ghost use Rattle.dali_frame.specs.declared.numbers.SearchAddress.{SearchAddress};
ghost use Rattle.dali_frame.specs.declared.frames.Answer.{Answer};
ghost use Rattle.dali_frame.specs.declared.frames.Answer.TheVariants.{Silence};
ghost use Rattle.dali_frame.specs.Priority.{LATER};
ghost use Rattle.dali_special.specs.declared.command.Command.{Command};
ghost use Rattle.dali_special.specs.Command.{frame_of};
ghost use Rattle.dali_script.specs.declared.stage.Stage.TheVariants as stage;
ghost use Rattle.dali_controller.specs.declared.purpose.Purpose.TheVariants as purpose;
ghost use Rattle.dali_controller.specs.declared.way.Way.TheVariants as way;
ghost use Rattle.dali_script.specs.declared.orders.Input.TheVariants as input;
ghost use Rattle.dali_script.specs.declared.orders.Order.TheVariants as order;
ghost use Rattle.dali_script.specs.Due.{due_after, frame_put};
ghost use Rattle.dali_script.specs.declared.orders.Due.TheVariants as due;
ghost use Rattle.dali_controller.specs.Course.{is_yes, call_turn};
ghost use Rattle.dali_controller.specs.Next.{most_silent};
ghost use Rattle.dali_controller.specs.Machine.{machine_lost};

use crate::leg::Leg;
use crate::purpose::Purpose;
use crate::state::State;
use crate::tally::Tally;
use crate::way::Way;
use dali_frame::{Answer, Forward, Random24, SearchAddress, Short};
use dali_script::{End, Fault, Order, Record, Records, Stage, Trace};
use dali_special::Command;

/// The tries of one transaction.
pub(crate) const TRIES: u8 = 8;

/// The silent searches in a row, after a start.
const SILENT: u8 = 16;

/// The silent searches in a row of a survey. They are more, since what another controller addressed meanwhile does not
/// answer either.
const SILENT_IN_SURVEY: u8 = 80;

/// Whether an answer to COMPARE is a yes: a damaged one is, as of several gear that answer together.
pub(crate) fn is_yes(heard: Answer) -> bool
    ensures { result ≡ is_yes heard }
{
    match heard {
        Answer::Silence => false,
        Answer::Byte(_) | Answer::Damaged => true,
    }
}

/// How many silent searches in a row end it.
pub(crate) fn most_silent(way: Way) -> u8
    ensures { result ≡ most_silent way }
{
    match way {
        Way::Fresh => SILENT,
        Way::Surveying => SILENT_IN_SURVEY,
    }
}

impl State {
    ghost use Rattle.dali_controller.specs.States.{machine_with, course_of};
    ghost use Rattle.dali_controller.specs.Whole.{IsWhole, IsOpenedOn, IsVisitedOn};
    ghost use Rattle.dali_controller.specs.Moments.{IsHeard, IsBetween, Settles, IsMoment, Begun, Enrolled};
    ghost use Rattle.dali_controller.specs.Moments.{IsStep};
    ghost use Rattle.dali_controller.specs.Legs.{is_searching, way_on};
    ghost use Rattle.dali_controller.specs.Course.{opening, closing, going_on, turn_of};
    ghost use Rattle.dali_controller.specs.Next.{next_course, beginning, silenced, BeginsWith, question};
    ghost use Rattle.dali_controller.specs.Machine.{machine_told};
    ghost use Rattle.dali_controller.specs.Orders.{AfterFinding, AfterEnrolled, IsFollowed, IsSought};
    ghost use Rattle.dali_script.specs.declared.records.Record.TheVariants.{Reserve, Enrol};
    ghost use Rattle.dali_script.specs.declared.orders.Order.TheVariants.{Commit};
    ghost use Rattle.dali_script.specs.declared.stage.Stage.TheVariants.{Inconclusive, Spelled, Hunted};
    ghost use Rattle.dali_script.specs.Stages.{stage_of, IsReached};

    /// The start: visits to what is unfinished, and then an opening.
    pub(crate) fn start(&mut self, kept: &Records<'_>) -> Order
        requires whole { IsWhole (machine_with self.old kept.now) }
        requires unstarted { self.old.last ≡ None }

        ensures followed { IsFollowed (machine_told (machine_with self.old kept.now) input.Start) result }
        ensures begins { BeginsWith (course_of self.new) result }
        ensures step { IsStep (machine_with self.old kept.now) input.Start result
            (machine_with self.new kept.now) }
        ensures whole { IsWhole (machine_with self.new kept.now) }
    {
        self.go_on(kept)
    }

    /// The start of a survey: each short address is asked that is not accounted for, and then the roll is
    /// called.
    pub(crate) fn survey(&mut self, kept: &Records<'_>) -> Order
        requires whole { IsWhole (machine_with self.old kept.now) }
        requires unstarted { self.old.last ≡ None }

        ensures followed { IsFollowed (machine_told (machine_with self.old kept.now) input.Survey) result }
        ensures begins { BeginsWith (course_of self.new) result }
        ensures step { IsStep (machine_with self.old kept.now) input.Survey result
            (machine_with self.new kept.now) }
        ensures whole { IsWhole (machine_with self.new kept.now) }
    {
        self.leg = Leg::Asking {
            from: 0,
            silences: 0,
        };
        self.tally = Tally::NONE;
        self.go_on(kept)
    }

    /// The next transaction: before the opening was complete another visit or the opening, in a survey the next short
    /// address or the roll call; afterwards a new search.
    pub(crate) fn go_on(&mut self, kept: &Records<'_>) -> Order
        ensures { Begun (machine_with self.old kept.now)
            (going_on kept.now (is_searching self.old.leg) (course_of self.old))
            result (machine_with self.new kept.now) }
    {
        match &mut self.leg {
            Leg::Revisiting { from } => {
                let from = *from;
                self.visit_or_open(kept, from)
            }
            Leg::Asking { from, silences } => {
                let (from, silences) = (*from, *silences);
                self.ask_or_call(kept, from, silences)
            }
            Leg::Searching(_) => self.search_anew(kept),
            Leg::Hunting(_) => self.hunt_on(kept),
        }
    }

    /// The transaction that lets all gear without short address draw a random address.
    pub(crate) fn open(&mut self, kept: &Records<'_>) -> Order
        requires { IsOpenedOn (way_on self.old.leg) (is_searching self.old.leg) }

        ensures { Begun (machine_with self.old kept.now) (opening (course_of self.old))
            result (machine_with self.new kept.now) }
    {
        let number = self.number;
        self.begin(kept, Purpose::Opening, number)
    }

    /// The transaction that ends the initialisation of all gear, before this end.
    pub(crate) fn close(&mut self, kept: &Records<'_>, end: End) -> Order
        requires { is_searching self.old.leg ≡ true }

        ensures { Begun (machine_with self.old kept.now) (closing (course_of self.old) end)
            result (machine_with self.new kept.now) }
    {
        let number = self.number;
        self.begin(kept, Purpose::Closing(end), number)
    }

    /// What follows a frame that was sent, and what was heard after it.
    pub(crate) fn heard(&mut self, kept: &Records<'_>, frame: Forward, heard: Answer) -> Order
        requires whole { IsWhole (machine_with self.old kept.now) }
        requires put { frame_put self.old.last ≡ Some frame }

        ensures followed { IsFollowed (machine_told (machine_with self.old kept.now) (input.Heard heard))
            result }
        ensures begins { BeginsWith (course_of self.new) result }
        ensures step { IsStep (machine_with self.old kept.now) (input.Heard heard) result
            (machine_with self.new kept.now) }
        ensures whole { IsWhole (machine_with self.new kept.now) }
    {
        let reached = self.trace.after(frame, Command::read(frame), heard);
        self.heard_at(kept, frame, heard, reached)
    }

    /// The same, if it is known how far the transaction is with this frame.
    #[inline(always)]
    pub(crate) fn heard_at(
        &mut self,
        kept: &Records<'_>,
        frame: Forward,
        heard: Answer,
        reached: Stage,
    ) -> Order
        requires whole { IsWhole (machine_with self.old kept.now) }
        requires put { frame_put self.old.last ≡ Some frame }
        requires reached { IsReached reached (self.old.trace ++ (record { frame = frame; heard = heard }) ∷ []) }

        ensures followed { IsFollowed (machine_told (machine_with self.old kept.now) (input.Heard heard))
            result }
        ensures begins { BeginsWith (course_of self.new) result }
        ensures step { IsStep (machine_with self.old kept.now) (input.Heard heard) result
            (machine_with self.new kept.now) }
        ensures whole { IsWhole (machine_with self.new kept.now) }
    {
        let stage = self.hear(kept, frame, heard, reached);
        self.after(kept, stage)
    }

    /// What follows at each stage of a transaction.
    #[inline(always)]
    fn after(&mut self, kept: &Records<'_>, stage: Stage) -> Order
        requires heard { IsHeard (machine_with self.old kept.now) stage }

        ensures sent { (c : Command) → turn_of self.old.purpose self.old.number (stage_of self.old.trace) ≡ Some c
            → result ≡ order.Put LATER (frame_of c) }
        ensures told { (b n : ℕ) → stage_of self.old.trace ≡ Spelled b (Some n)
            → IsSought self.old.purpose self.old.number n → AfterFinding (machine_with self.old kept.now) b n result }
        ensures another { (b n : ℕ) → stage_of self.old.trace ≡ Spelled b (Some n)
            → (IsSought self.old.purpose self.old.number n → ⊥)
            → result ≡ beginning (next_course (machine_with self.old kept.now)) }
        ensures unconfirmed { (r : SearchAddress) (other : Option ℕ) → stage_of self.old.trace ≡ Inconclusive r other
            → result ≡ beginning (next_course (machine_with self.old kept.now)) }
        ensures hunted { (r : SearchAddress) (h : Answer) (left : ℕ) → stage_of self.old.trace ≡ Hunted r (Some h) left
            → self.old.purpose ≡ purpose.Hunting
            → result ≡ question (next_course (machine_with self.old kept.now)) r left }
        ensures called { (r : SearchAddress) (h : Answer) (left : ℕ) → stage_of self.old.trace ≡ Hunted r (Some h) left
            → self.old.purpose ≡ purpose.Calling → call_turn (Some h) left ≡ None
            → result ≡ beginning (next_course (machine_with self.old kept.now)) }
        ensures moment { IsMoment (machine_with self.old kept.now) result (machine_with self.new kept.now) }
    {
        if let Some(command) = self.purpose.turn(self.number, &stage) {
            return self.turn(kept, &stage, command);
        }
        match stage {
            Stage::Terminated => self.terminated(kept),
            Stage::Opened | Stage::DrawBarred => self.search_first(kept),
            Stage::Probed(_, heard) => self.probed(kept, heard),
            Stage::Hunted(sent, heard, left) => self.compared(kept, sent, heard, left),
            Stage::Unnamed(number) => self.unnamed(kept, number),
            Stage::Unanswered(number) => self.unanswered(kept, number),
            Stage::Inconclusive(..) => self.silenced(kept),
            Stage::Withdrawn(number, short) => self.withdrawn(kept, number, short),
            Stage::PassedOver(_) => self.passed_over(kept),
            Stage::HighAsked(..) => self.asked_once(kept),
            Stage::MiddleAsked(..) => self.unheard(kept),
            Stage::Spelled(short, number) => self.resolved(kept, short, number),
            // At these the turn sends the next command, or no transaction of a machine comes there.
            Stage::Free
            | Stage::InitialisedOnce
            | Stage::Initialised
            | Stage::WokenHigh(_)
            | Stage::WokenLow(..)
            | Stage::WokenMiddle(..)
            | Stage::DrawFree
            | Stage::RandomisedOnce
            | Stage::HighSent(_)
            | Stage::MiddleSent(..)
            | Stage::NumberSent(_)
            | Stage::LowSent(..)
            | Stage::Found(..)
            | Stage::Programmed(..)
            | Stage::Confirmed(..)
            | Stage::Over => unreachable!(),
        }
    }

    /// The transaction goes on with the command of its turn.
    #[inline(always)]
    fn turn(&mut self, kept: &Records<'_>, stage: &Stage, command: Command) -> Order
        requires heard { IsHeard (machine_with self.old kept.now) stage.now }
        requires turn { turn_of self.old.purpose self.old.number stage.now ≡ Some command }

        ensures order { result ≡ order.Put LATER (frame_of command) }
        ensures moment { IsMoment (machine_with self.old kept.now) result (machine_with self.new kept.now) }
    {
        // For the prover: the clauses speak of the stage.
        let _ = stage;
        self.put(kept, command)
    }

    /// The TERMINATE of a close was sent.
    fn terminated(&mut self, kept: &Records<'_>) -> Order
        requires heard { IsHeard (machine_with self.old kept.now) stage.Terminated }
        requires over { turn_of self.old.purpose self.old.number stage.Terminated ≡ None }

        ensures { IsMoment (machine_with self.old kept.now) result (machine_with self.new kept.now) }
    {
        match self.purpose.end() {
            Some(end) => self.done(kept, end),
            // Only a close ends with TERMINATE, and it has an end.
            None => unreachable!(),
        }
    }

    /// The visit led to no gear.
    pub(crate) fn silenced(&mut self, kept: &Records<'_>) -> Order
        requires heard { (number : SearchAddress)
            × (IsHeard (machine_with self.old kept.now) (stage.Unanswered number)
            ⊎ ((other : Option ℕ) × IsHeard (machine_with self.old kept.now) (stage.Inconclusive number other))) }
        requires next { next_course (machine_with self.old kept.now) ≡ silenced (machine_with self.old kept.now) }

        ensures starts { result ≡ beginning (next_course (machine_with self.old kept.now)) }
        ensures moment { IsMoment (machine_with self.old kept.now) result (machine_with self.new kept.now) }
    {
        if self.silent == most_silent(self.leg.way()) {
            return self.close(kept, End::GaveUp);
        }
        match self.leg {
            Leg::Hunting(_) => self.missed(kept),
            Leg::Revisiting { .. } | Leg::Asking { .. } | Leg::Searching(_) => self.go_on(kept),
        }
    }

    /// The gear with this short address and this random address was found.
    pub(crate) fn settle(&mut self, kept: &Records<'_>, short: Short, random: Random24) -> Order
        requires { Settles (machine_with self.old kept.now) short random }

        ensures found { AfterFinding (machine_with self.old kept.now) short random result }
        ensures moment { IsMoment (machine_with self.old kept.now) result (machine_with self.new kept.now) }
    {
        match kept.enrolled_at(short) {
            Some(enrolled) if enrolled == random => self.go_on(kept),
            Some(_) => self.halt(kept, Fault::Conflict),
            None => match kept.enrolled_for(random) {
                Some(_) => self.halt(kept, Fault::Conflict),
                None => self.commit(kept, Record::Enrol(short, random)),
            },
        }
    }

    /// The frame that was put was destroyed, or not sent: the same transaction begins again.
    pub(crate) fn lost(&mut self, kept: &Records<'_>) -> Order
        requires whole { IsWhole (machine_with self.old kept.now) }
        requires put { due_after self.old.last ≡ due.Bus }

        ensures followed { IsFollowed (machine_lost (machine_with self.old kept.now)) result }
        ensures moment { IsMoment (machine_lost (machine_with self.old kept.now))
            result (machine_with self.new kept.now) }
    {
        self.trace = Trace::new();
        self.tries += 1;
        if self.tries == TRIES {
            return self.done(kept, End::GaveUp);
        }
        let purpose = self.purpose;
        let number = self.number;
        self.begin(kept, purpose, number)
    }

    /// The record that was ordered is kept: `kept` has it.
    pub(crate) fn committed(&mut self, kept: &Records<'_>, added: Record) -> Order
        requires ordered { self.old.last ≡ Some (Commit added) }
        requires free { stage_of self.old.trace ≡ stage.Free }
        requires between { IsBetween (machine_with self.old kept.now) }
        requires reserved { (a n : ℕ) → added ≡ Reserve a n
            → (n < MASK24) × IsVisitedOn (way_on self.old.leg) kept.now n (is_searching self.old.leg) }
        requires enrolled { (b n : ℕ) → added ≡ Enrol b n → Enrolled (machine_with self.old kept.now) b n }

        ensures enrolled { (b n : ℕ) → added ≡ Enrol b n → AfterEnrolled (machine_with self.old kept.now) b n result }
        ensures moment { IsMoment (machine_with self.old kept.now) result (machine_with self.new kept.now) }
    {
        match added {
            Record::Reserve(_, number) => self.visit(kept, number),
            Record::Enrol(short, number) => self.enrolled(kept, short, number),
            Record::Release(..) => self.go_on(kept),
        }
    }

    /// The gear with this short address and this random address is enrolled. Another short address that was reserved
    /// for it is given back.
    fn enrolled(&mut self, kept: &Records<'_>, short: Short, random: Random24) -> Order
        requires { Enrolled (machine_with self.old kept.now) short random }

        ensures enrolled { AfterEnrolled (machine_with self.old kept.now) short random result }
        ensures moment { IsMoment (machine_with self.old kept.now) result (machine_with self.new kept.now) }
    {
        match kept.reserved_for(random) {
            Some(other) if other != short => self.commit(kept, Record::Release(other, random)),
            _ => self.go_on(kept),
        }
    }

    /// The record that was ordered could not be kept.
    pub(crate) fn commit_failed(&mut self, kept: &Records<'_>) -> Order
        requires { IsWhole (machine_with self.old kept.now) }

        ensures begins { BeginsWith (course_of self.new) result }
        ensures step { IsStep (machine_with self.old kept.now) input.CommitFailed result
            (machine_with self.new kept.now) }
        ensures whole { IsWhole (machine_with self.new kept.now) }
    {
        self.halt(kept, Fault::Store)
    }
}
