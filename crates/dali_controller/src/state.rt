ghost use Rattle.std.specs.Prelude.{◌≡◌, ◌+◌, ◌<◌, ◌||◌, Some, ◌++◌, ◌∷◌, []};
ghost use Rattle.dali_frame.specs.Priority.{FIRST, LATER};
ghost use Rattle.dali_special.specs.Command.{frame_of};
ghost use Rattle.dali_frame.specs.declared.numbers.SearchAddress.{SearchAddress};
ghost use Rattle.dali_script.specs.declared.stage.Stage.TheVariants.{Free, Unnamed};
ghost use Rattle.dali_script.specs.Findings.{later, finding_of};
ghost use Rattle.dali_script.specs.Records.{Fits, MayAdd};
ghost use Rattle.dali_script.specs.Stages.{stage_of, IsReached};
ghost use Rattle.dali_script.specs.declared.orders.Input.TheVariants as input;
ghost use Rattle.dali_script.specs.declared.orders.Order.TheVariants as order;
ghost use Rattle.dali_controller.specs.declared.purpose.Purpose.TheVariants as purpose;
ghost use Rattle.dali_script.specs.Due.{frame_put};
ghost use Rattle.dali_controller.specs.Machine.{machine_told, is_complete, is_ended, is_passed_by, tries_after};
ghost use Rattle.dali_controller.specs.Machine.{silent_after};
ghost use Rattle.dali_controller.specs.Machine.{heard_after, asked_after};
ghost use Rattle.dali_controller.specs.Machine.{marked_at, asked_at};
ghost use Rattle.dali_controller.specs.Orders.{machine_ordered, machine_ordered_on, AfterMaskOn};

use crate::leg::Leg;
use crate::purpose::{Purpose, byte_to_send};
use crate::shorts::Shorts;
use crate::tally::Tally;
use dali_frame::{Answer, Forward, Priority, Random24, SearchAddress};
use dali_script::{End, Fault, Finding, Order, Record, Records, Stage, Trace};
use dali_special::Command;

/// How often a short address is asked that is silent.
const ASKED: u8 = 3;

/// A machine without its records: plain data of a fixed size, to be handed over or laid down between two inputs and
/// made a machine again (`Machine::of`). It takes no memory.
///
/// A state may be that of no machine. A caller that has the records elsewhere steps it with them (`step`).
#[derive(Drop)]
pub struct State {
    /// The controller's number.
    pub id: u8,
    /// The frames of the running transaction, each with what was heard.
    pub trace: Trace,
    /// The last gear that was found.
    pub finding: Option<Finding>,
    /// What was ordered last.
    pub last: Option<Order>,
    /// How often in a row the running transaction was lost.
    pub tries: u8,
    /// How many searches in a row led to no gear.
    pub silent: u8,
    /// What the running transaction is for.
    pub purpose: Purpose,
    /// The search address of the running transaction, if it has one.
    pub number: SearchAddress,
    /// How far it is on its way.
    pub leg: Leg,
    /// At which short addresses a survey heard gear whose random address it does not know.
    pub heard: Shorts,
    /// What a survey has counted, and whose visits failed.
    pub tally: Tally,
}

impl State {
    ghost use Rattle.dali_controller.specs.States.{machine_with, course_of};
    ghost use Rattle.dali_controller.specs.Legs.{way_on, is_searching, silences_on, search_on, ascent_on};
    ghost use Rattle.dali_controller.specs.Moments.{IsHeard, IsNext, Begun};
    ghost use Rattle.dali_controller.specs.Whole.{IsWhole, Sends, IsReady, Knows, IsStoredIn};
    ghost use Rattle.dali_controller.specs.Course.{closing_of, taking, byte_to_send};

    /// The same state once more.
    pub(crate) fn copy(&self) -> State
        ensures { result ≡ self.now }
    {
        State {
            id: self.id,
            trace: self.trace.copy(),
            finding: self.finding,
            last: self.last,
            tries: self.tries,
            silent: self.silent,
            purpose: self.purpose,
            number: self.number,
            leg: self.leg.copy(),
            heard: self.heard,
            tally: self.tally,
        }
    }

    /// Whether the running transaction is complete.
    fn is_complete(&self, kept: &Records<'_>) -> bool
        ensures { result ≡ is_complete kept.now (closing_of self.now.purpose) (stage_of self.now.trace) }
    {
        self.purpose.end().is_some() || self.trace.complete_by(kept)
    }

    /// The tries of the running transaction: none if it is complete.
    #[inline(always)]
    fn tries_after(&self, kept: &Records<'_>) -> u8
        ensures { result
            ≡ tries_after (is_complete kept.now (closing_of self.now.purpose) (stage_of self.now.trace)
            || is_ended self.now.purpose self.now.number (stage_of self.now.trace)
            || is_passed_by (machine_with self.now kept.now) (stage_of self.now.trace)) self.now.tries }
    {
        // Of a transaction that was not lost before, it need not be known.
        if self.tries == 0 || self.is_ended() || self.is_over(kept) {
            0
        } else {
            self.tries
        }
    }

    /// Whether the running transaction is complete, or is a visit that ends before PROGRAM SHORT ADDRESS: what is
    /// reserved for the gear that it found is another's.
    fn is_over(&self, kept: &Records<'_>) -> bool
        ensures { result ≡ (is_complete kept.now (closing_of self.now.purpose) (stage_of self.now.trace)
            || is_passed_by (machine_with self.now kept.now) (stage_of self.now.trace)) }
    {
        match self.trace.stage() {
            Stage::Unnamed(number) if self.purpose.end().is_none() => {
                match kept.reserved_for(number.value()) {
                    Some(address) => self.is_withheld(kept, address, number.value()),
                    None => true,
                }
            }
            _ => self.is_complete(kept),
        }
    }

    /// The silent searches, with the running transaction.
    fn silent_after(&self) -> u8
        requires { self.now.silent < 255 }
        ensures { result ≡ silent_after (stage_of self.now.trace) (is_searching self.now.leg) self.now.silent }
    {
        match self.trace.stage() {
            Stage::Unanswered(_) | Stage::Inconclusive(..) if self.leg.is_searching() => {
                self.silent + 1
            }
            Stage::Withdrawn(..) => 0,
            _ => self.silent,
        }
    }

    /// Whether the running transaction is one of a survey, and may end here.
    fn is_ended(&self) -> bool
        ensures { result ≡ is_ended self.now.purpose self.now.number (stage_of self.now.trace) }
    {
        let is_front = matches!(
            self.purpose,
            Purpose::Asking(_) | Purpose::Calling | Purpose::Hunting
        );
        is_front
            && self
                .purpose
                .turn(self.number, &self.trace.stage())
                .is_none()
    }

    /// What a survey has heard, with the running transaction, after whose last frame this was heard.
    #[inline(always)]
    fn heard_after(&self, heard: Answer) -> Shorts
        ensures { result ≡ heard_after self.now.purpose (stage_of self.now.trace) heard self.now.heard }
    {
        match self.purpose {
            Purpose::Asking(_) => marked_at(&self.trace.stage(), heard, self.heard),
            // No other transaction of a survey asks a short address.
            Purpose::Opening
            | Purpose::Probing
            | Purpose::Hunting
            | Purpose::Visiting
            | Purpose::Resolving(_)
            | Purpose::Closing(_)
            | Purpose::Calling
            | Purpose::Drawing
            | Purpose::PassingOver => self.heard,
        }
    }

    /// How often in a row silence was heard, with the running transaction, after whose last frame this was heard.
    fn asked_after(&self, heard: Answer) -> u8
        ensures { result ≡ asked_after self.now.purpose (stage_of self.now.trace) heard (silences_on self.now.leg) }
    {
        match self.purpose {
            Purpose::Asking(_) => asked_at(&self.trace.stage(), heard, self.leg.silences()),
            // No other transaction of a survey asks a short address.
            Purpose::Opening
            | Purpose::Probing
            | Purpose::Hunting
            | Purpose::Visiting
            | Purpose::Resolving(_)
            | Purpose::Closing(_)
            | Purpose::Calling
            | Purpose::Drawing
            | Purpose::PassingOver => 0,
        }
    }

    /// Keeps the last finding.
    fn note_finding(&mut self)
        ensures { self.new ≡ record self.old { finding = later self.old.finding (finding_of self.old.trace) } }
    {
        if let Some(found) = self.trace.how_found() {
            self.finding = Some(found);
        }
    }

    /// Takes what was heard after the frame that was put, and says how far the transaction is: `reached`.
    #[inline(always)]
    pub(crate) fn hear(
        &mut self,
        kept: &Records<'_>,
        frame: Forward,
        heard: Answer,
        reached: Stage,
    ) -> Stage
        requires whole { IsWhole (machine_with self.old kept.now) }
        requires put { frame_put self.old.last ≡ Some frame }
        requires reached { IsReached reached (self.old.trace ++ (record { frame = frame; heard = heard }) ∷ []) }

        ensures told { machine_with self.new kept.now
            ≡ machine_told (machine_with self.old kept.now) (input.Heard heard) }
        ensures heard { IsHeard (machine_with self.new kept.now) result }
    {
        self.trace.push(frame, heard, reached);
        self.note_finding();
        self.tries = self.tries_after(kept);
        self.silent = self.silent_after();
        self.heard = self.heard_after(heard);
        let silences = self.asked_after(heard);
        self.leg.note_silences(silences);
        self.trace.stage()
    }

    /// Goes on with the running transaction.
    #[inline(always)]
    pub(crate) fn put(&mut self, kept: &Records<'_>, command: Command) -> Order
        requires heard { IsHeard (machine_with self.old kept.now) (stage_of self.old.trace) }
        requires sends { Sends kept.now self.old.number self.old.purpose (stage_of self.old.trace) command }
        requires later { stage_of self.old.trace ≡ Free → ⊥ }
        requires masked { (r : SearchAddress) → stage_of self.old.trace ≡ Unnamed r
            → AfterMaskOn (way_on self.old.leg) (machine_with self.old kept.now) (course_of self.old) r
            (order.Put LATER (frame_of command)) }

        ensures order { result ≡ order.Put LATER (frame_of command) }
        ensures course { course_of self.new ≡ course_of self.old }
        ensures next { IsNext (machine_with self.old kept.now) result (machine_with self.new kept.now) }
        ensures whole { IsWhole (machine_with self.new kept.now) }
    {
        let priority = Priority::LATER;
        let frame = command.write();
        self.last = Some(Order::Put(priority, frame));
        Order::Put(priority, frame)
    }

    /// Asks the next question of a hunt in the transaction that runs, under whose search address the last one was
    /// asked.
    pub(crate) fn ask_on(
        &mut self,
        kept: &Records<'_>,
        number: SearchAddress,
        sent: SearchAddress,
    ) -> Order
        requires { self.old.purpose ≡ purpose.Hunting }

        ensures order { result ≡ order.Put LATER (frame_of (byte_to_send number sent)) }
        ensures state { machine_with self.new kept.now ≡ machine_ordered_on (machine_with self.old kept.now)
            (taking (course_of self.old) purpose.Hunting number) result }
    {
        let priority = Priority::LATER;
        let frame = byte_to_send(number, sent).write();
        self.number = number;
        self.last = Some(Order::Put(priority, frame));
        Order::Put(priority, frame)
    }

    /// Begins a transaction.
    pub(crate) fn begin(
        &mut self,
        kept: &Records<'_>,
        purpose: Purpose,
        number: SearchAddress,
    ) -> Order
        requires { Knows (way_on self.old.leg) kept.now number (search_on self.old.leg) (ascent_on self.old.leg)
            (is_searching self.old.leg) purpose }

        ensures { Begun (machine_with self.old kept.now) (taking (course_of self.old) purpose number)
            result (machine_with self.new kept.now) }
    {
        let priority = Priority::FIRST;
        let frame = purpose.first(number).write();
        self.trace = Trace::new();
        self.purpose = purpose;
        self.number = number;
        self.last = Some(Order::Put(priority, frame));
        Order::Put(priority, frame)
    }

    /// Orders that a record is kept.
    pub(crate) fn commit(&mut self, kept: &Records<'_>, added: Record) -> Order
        requires ready { IsReady (machine_with self.old kept.now) }
        requires going { closing_of self.old.purpose ≡ None }
        requires fits { Fits kept.now.block added }
        requires may { MayAdd kept.now added }
        requires stored { IsStoredIn added self.old.purpose }

        ensures order { result ≡ order.Commit added }
        ensures course { course_of self.new ≡ course_of self.old }
        ensures state { machine_with self.new kept.now ≡ machine_ordered (machine_with self.old kept.now) result }
        ensures whole { IsWhole (machine_with self.new kept.now) }
    {
        self.trace = Trace::new();
        let same = added;
        self.last = Some(Order::Commit(added));
        Order::Commit(same)
    }

    /// Ends.
    pub(crate) fn done(&mut self, kept: &Records<'_>, end: End) -> Order
        ensures order { result ≡ order.Done end }
        ensures course { course_of self.new ≡ course_of self.old }
        ensures state { machine_with self.new kept.now ≡ machine_ordered (machine_with self.old kept.now) result }
        ensures whole { IsWhole (machine_with self.new kept.now) }
    {
        self.trace = Trace::new();
        self.last = Some(Order::Done(end));
        Order::Done(end)
    }

    /// Halts.
    pub(crate) fn halt(&mut self, kept: &Records<'_>, fault: Fault) -> Order
        ensures order { result ≡ order.Halt fault }
        ensures course { course_of self.new ≡ course_of self.old }
        ensures state { machine_with self.new kept.now ≡ machine_ordered (machine_with self.old kept.now) result }
        ensures whole { IsWhole (machine_with self.new kept.now) }
    {
        self.trace = Trace::new();
        self.last = Some(Order::Halt(fault));
        Order::Halt(fault)
    }
}

/// The short addresses at which gear was heard, with the one that is asked: it is one of them until three bytes
/// told a random address that gear draw.
fn marked_at(stage: &Stage, answer: Answer, heard: Shorts) -> Shorts
    ensures { result ≡ marked_at stage.now answer heard }
{
    match *stage {
        Stage::HighAsked(short, None) => match answer {
            Answer::Silence => heard,
            Answer::Byte(_) | Answer::Damaged => heard.with(short),
        },
        Stage::HighAsked(short, Some(_))
        | Stage::MiddleAsked(short, _)
        | Stage::Spelled(short, None) => heard.with(short),
        Stage::Spelled(short, Some(number)) => {
            if number == Random24::MASK {
                heard.with(short)
            } else {
                heard.without(short)
            }
        }
        // Any other frame tells nothing of it.
        _ => heard,
    }
}

/// How often in a row a short address that is asked was silent.
fn asked_at(stage: &Stage, heard: Answer, asked: u8) -> u8
    ensures { result ≡ asked_at stage.now heard asked }
{
    match *stage {
        Stage::HighAsked(_, None) => match heard {
            Answer::Silence if asked < ASKED - 1 => asked + 1,
            Answer::Silence | Answer::Byte(_) | Answer::Damaged => 0,
        },
        // The row of silences ends with whatever else was sent or heard.
        _ => 0,
    }
}
