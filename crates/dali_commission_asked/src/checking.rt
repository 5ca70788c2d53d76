//! `check`: it is said which gear answer, beside the records.

ghost use Rattle.std.specs.Prelude.{◌≡◌, Result, IfOk, IfErr, option_map};
ghost use Rattle.dali_commissioning.specs.declared.beginning.Checked.{Checked};
ghost use Rattle.dali_commissioning.specs.declared.fault.CommissionFault.{CommissionFault};
ghost use Rattle.dali_commissioning.specs.Drivers.{talk_of, has_heard, lines_of, IsCutBeside};
ghost use Rattle.dali_commissioning.specs.Runs.{IsChecked};
ghost use Rattle.dali_commission_asked.specs.Came.{check_ended, check_reported, HasChecked, IsCheckOf};
ghost use Rattle.dali_commission_asked.specs.Came.{no_records};

use crate::sharing::{is_any_open, is_any_shared, or_open};
use dali_commission_said::{Came, Failure, Report, Session, Voice, checked, failure_of};
use dali_commission_stores::{Borrower, Stores, lend_copy};
use dali_commissioning::{Checked, CommissionFault, DriverLink, check};
use dali_reserve::{Keep, MemoryKeep};
use dali_script::Block;
use std::io::{Read, Write};

/// What a check comes to that found this, or could not be made, at this line of the driver; and whether any gear was
/// heard.
fn came_of(
    found: &Result<Checked, CommissionFault>,
    others: &[Block],
    has_heard: bool,
    line: u64,
) -> Came
    ensures ended { result.ended ≡ check_ended found.now others.now has_heard line }
    ensures report { result.report ≡ check_reported found.now others.now }
{
    match found {
        Ok(found) => {
            let report = Report::of_check(found, others);
            let ended = checked(&report.places, found.has_unaddressed, has_heard);
            Came {
                report,
                ended: or_open(
                    ended,
                    is_any_open(&found.replies),
                    is_any_shared(&found.replies),
                ),
            }
        }
        Err(fault) => Came::bare(Err(failure_of(*fault, line))),
    }
}

/// Asks which gear answer, beside these records.
fn checked_over<K: Keep, R: Read, W: Write>(
    store: &mut K,
    driver: &mut DriverLink<R, W>,
    others: &[Block],
) -> Came
    ensures { (found : Result Checked CommissionFault)
        × IfOk found (IsChecked K.is_up K.is_sound K.holds (K.block store.old) others.now store.old store.new
        (talk_of R.remaining W.contents driver.old) (talk_of R.remaining W.contents driver.new))
        × (result.ended ≡ check_ended found others.now (has_heard driver.new) (lines_of driver.new))
        × (result.report ≡ check_reported found others.now)
        × IfErr found (λ reason. IsCutBeside reason (talk_of R.remaining W.contents driver.old)
        (talk_of R.remaining W.contents driver.new)) }
{
    let found = check(store, driver, others);
    came_of(&found, others, driver.has_heard(), driver.lines())
}

/// Who says which gear answer.
#[derive(Drop)]
struct Checking<'a, S> {
    system: &'a S,
    others: &'a [Block],
}

impl<K: Keep, S: Voice, R: Read, W: Write> Borrower<K, Session<R, W>> for Checking<'_, S> {
    type Out = ();

    ghost use Rattle.dali_commissioning.specs.Drivers.{talk_of, has_heard, lines_of};
    ghost use Rattle.dali_commissioning.specs.Runs.{IsRead};
    ghost use Rattle.dali_commission_asked.specs.Came.{HasChecked};

    ghost came = { λ checking from to x y result. HasChecked (IsRead K.is_up K.is_sound K.holds (K.block from) from to)
        (S.told checking.system.now) checking.others.now (has_heard y.driver) (lines_of y.driver)
        (talk_of R.remaining W.contents x.driver) (talk_of R.remaining W.contents y.driver) y.report result };

    fn take(self, store: &mut K, session: &mut Session<R, W>) -> Result<(), Failure> {
        let came = checked_over(store, &mut session.driver, self.others);
        came.told(self.system, &session.driver, &mut session.report)
    }
}

/// The same beside no records.
fn checks_alone<S: Voice, R: Read, W: Write>(
    session: &mut Session<R, W>,
    checking: Checking<'_, S>,
) -> Result<(), Failure>
    ensures { HasChecked (λ kept. kept ≡ no_records) (S.told checking.entry.system.now) checking.entry.others.now
        (has_heard session.new.driver) (lines_of session.new.driver)
        (talk_of R.remaining W.contents session.old.driver)
        (talk_of R.remaining W.contents session.new.driver) session.new.report result }
{
    checking.take(&mut MemoryKeep::new(Block::ALL), session)
}

/// Says which gear answer, beside the records of this name, if there are any.
pub fn checks<S, F, R, W>(
    system: &S,
    stores: &F,
    session: &mut Session<R, W>,
    records: Option<&str>,
    others: &[Block],
) -> Result<(), Failure>
where
    S: Voice + AllocGlobal,
    F: Stores,
    R: Read,
    W: Write,
    ensures { IsCheckOf F.saw stores.now (S.told system.now) others.now (has_heard session.new.driver)
        (lines_of session.new.driver) (talk_of R.remaining W.contents session.old.driver)
        (talk_of R.remaining W.contents session.new.driver) session.old.report session.new.report result
        (option_map (λ name. name.now) records.entry) }
{
    let checking = Checking { system, others };
    match records {
        Some(name) => lend_copy(system.alloc(), stores, name, checking, session),
        None => checks_alone(session, checking),
    }
}
