//! What is proved of machines beside their contracts. Programs don't call this.

ghost use Rattle.std.specs.Prelude.{◌≡◌, ◌⊎◌, ℕ, [], None};
ghost use Rattle.dali_script.specs.Records.{Kept};
ghost use Rattle.dali_script.specs.declared.orders.Input.{Input};
ghost use Rattle.dali_script.specs.declared.orders.Order.{Order};
ghost use Rattle.dali_statement.specs.Own.{AreOwn};
ghost use Rattle.dali_controller.specs.Machine.{Machine, at_first, machine_told};
ghost use Rattle.dali_controller.specs.Acts.{Steps, Takes, acts_of, own_of};
ghost use Rattle.dali_controller.specs.Called.{machine_by, GivesUp, IsAnsweredCall, HasCalled};

/// A MACHINE KEEPS TO ITS SCRIPTS, whatever it is told. Its acts are what its steps put on the bus and what was heard
/// there, and the records of which it was told Committed. So it is a program of `programs_keep_the_promise` of
/// `dali_statement`, on a bus and with a store that told it what they did.
pub fn machines_keep_to_scripts()
    ensures { (m : Machine) (steps : Steps) → m.last ≡ None → m.trace ≡ [] → Takes m steps
        → AreOwn (own_of m) (acts_of None steps) }
{}

/// A SURVEY GIVES UP ONLY ONCE A ROLL CALL WAS ANSWERED after gear were to draw new random addresses for the last time:
/// in this step, or in an earlier one. If not, eighty searches in a row led to no gear.
///
/// It may end with gave-up without a close too: if its transaction was lost eight times in a row.
pub fn surveys_call_before_they_give_up()
    ensures { (id : ℕ) (k : Kept) (steps : Steps) (i : Input) (o : Order)
        → GivesUp (machine_by (at_first id k) steps) i o
        → ((machine_told (machine_by (at_first id k) steps) i).silent ≡ 80)
        ⊎ (IsAnsweredCall (machine_told (machine_by (at_first id k) steps) i) ⊎ HasCalled (at_first id k) steps) }
{}
