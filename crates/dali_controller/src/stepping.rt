ghost use Rattle.std.specs.Prelude.{◌≡◌, ◌↔◌, true, None, IsOk, IfOk, OnErr, IfSome, Some};
ghost use Rattle.dali_script.specs.Records.{Kept, Fits};
ghost use Rattle.dali_script.specs.Due.{due_after, accepts, record_ordered};
ghost use Rattle.dali_script.specs.Stages.{IsReached};
ghost use Rattle.dali_script.specs.declared.orders.Input.TheVariants as input;
ghost use Rattle.dali_controller.specs.Machine.{machine_told};
ghost use Rattle.dali_controller.specs.Orders.{IsGiven, machine_after};

use crate::error::StepError;
use crate::leg::Leg;
use crate::purpose::Purpose;
use crate::shorts::Shorts;
use crate::state::State;
use crate::tally::Tally;
use dali_frame::{Answer, SearchAddress};
use dali_script::{Due, Input, Order, Record, Records, Stage, Trace};

impl State {
    ghost use Rattle.dali_controller.specs.Machine.{at_first};
    ghost use Rattle.dali_controller.specs.States.{machine_with};
    ghost use Rattle.dali_controller.specs.Whole.{IsWhole};
    ghost use Rattle.dali_controller.specs.Steps.{kept_by, IsBefore};

    /// The state of a machine that has not started, for the controller with this number.
    pub fn new(id: u8) -> State
        ensures first { (k : Kept) → machine_with result k ≡ at_first id k }
        ensures whole { (k : Kept) → IsWhole (machine_with result k) }
    {
        State {
            id,
            trace: Trace::new(),
            finding: None,
            last: None,
            tries: 0,
            silent: 0,
            purpose: Purpose::Opening,
            number: SearchAddress::MASK,
            leg: Leg::Revisiting { from: 0 },
            heard: Shorts::NONE,
            tally: Tally::NONE,
        }
    }

    /// What the machine waits for.
    pub fn due(&self) -> Due
        ensures { result ≡ due_after self.now.last }
    {
        Due::after(self.last)
    }

    /// The record that is kept from now on, if this input says so: the one that was ordered last.
    pub fn kept_by(&self, input: Input) -> Option<Record>
        ensures { result ≡ kept_by self.now.last input }
    {
        match input {
            Input::Committed => match self.last {
                Some(Order::Commit(added)) => Some(added),
                None | Some(Order::Put(..) | Order::Done(_) | Order::Halt(_)) => None,
            },
            Input::Start
            | Input::Survey
            | Input::Heard(_)
            | Input::Destroyed
            | Input::Lapsed
            | Input::CommitFailed => None,
        }
    }

    /// Takes what was heard after the frame that was put, as `step` does by `Heard`. `reached` is how far the
    /// transaction is with this frame.
    ///
    /// `NotDue`: no frame was put last, and nothing changed.
    #[inline(always)]
    pub(crate) fn step_heard(
        &mut self,
        kept: &Records<'_>,
        heard: Answer,
        reached: Stage,
    ) -> Result<Order, StepError>
        requires whole { IsWhole (machine_with self.old kept.now) }
        requires reached { IsReached reached (machine_told (machine_with self.old kept.now) (input.Heard heard)).trace }

        ensures due { IsOk result ↔ (accepts (due_after self.old.last) (input.Heard heard) ≡ true) }
        ensures not_due { OnErr result (self.new ≡ self.old) }
        ensures given { IfOk result (IsGiven (machine_with self.old kept.now) (input.Heard heard)) }
        ensures state { IfOk result (λ order. machine_with self.new kept.now
            ≡ machine_after (machine_with self.old kept.now) (input.Heard heard) order) }
        ensures whole { IsWhole (machine_with self.new kept.now) }
    {
        match self.last {
            Some(Order::Put(_, frame)) => Ok(self.heard_at(kept, frame, heard, reached)),
            None | Some(Order::Commit(_) | Order::Done(_) | Order::Halt(_)) => Err(
                StepError::NotDue,
            ),
        }
    }

    /// Takes an input, and orders what is to be done next. `kept` are the machine's records, with the one that the
    /// input says is kept (`kept_by`).
    ///
    /// `NotDue`: the machine waits for something else, and nothing changed.
    pub fn step(&mut self, kept: &Records<'_>, input: Input) -> Result<Order, StepError>
        requires { (k : Kept) × IsBefore self.old k input kept.now }

        ensures due { IsOk result ↔ (accepts (due_after self.old.last) input ≡ true) }
        ensures not_due { OnErr result (self.new ≡ self.old) }
        ensures given { (k : Kept) → IsBefore self.old k input kept.now
            → IfOk result (λ order. IsGiven (machine_with self.old k) input order) }
        ensures state { (k : Kept) → IsBefore self.old k input kept.now
            → IfOk result (λ order.
            machine_with self.new kept.now ≡ machine_after (machine_with self.old k) input order) }
        ensures whole { IfOk result (λ order. IsWhole (machine_with self.new kept.now)) }
        ensures fits { IfOk result (λ order. IfSome (record_ordered (Some order)) (Fits kept.now.block)) }
    {
        match (self.last, input) {
            (None, Input::Start) => Ok(self.start(kept)),
            (None, Input::Survey) => Ok(self.survey(kept)),
            (Some(Order::Put(_, frame)), Input::Heard(heard)) => Ok(self.heard(kept, frame, heard)),
            (Some(Order::Put(..)), Input::Destroyed) => Ok(self.lost(kept)),
            (Some(Order::Put(..)), Input::Lapsed) => Ok(self.lost(kept)),
            (Some(Order::Commit(added)), Input::Committed) => Ok(self.committed(kept, added)),
            (Some(Order::Commit(_)), Input::CommitFailed) => Ok(self.commit_failed(kept)),
            (
                _,
                Input::Start
                | Input::Survey
                | Input::Heard(_)
                | Input::Destroyed
                | Input::Lapsed
                | Input::Committed
                | Input::CommitFailed,
            ) => Err(StepError::NotDue),
        }
    }
}
