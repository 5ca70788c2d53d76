//! `replace` asks the bus: what is there before the address is given, and before anything is said of it.

ghost use Rattle.std.specs.Prelude.{◌≡◌, ◌≤◌, ℕ, true, length, IfOk, IfErr};
ghost use Rattle.dali_commissioning.specs.declared.census.Reply.TheVariants as heard;
ghost use Rattle.dali_commissioning.specs.Census.{IsAnswered};
ghost use Rattle.dali_commissioning.specs.Drivers.{talk_of, has_heard, lines_of};
ghost use Rattle.dali_replacement.specs.Permit.{others_at, others_come, others_table, confirmed_at, confirmed_random};
ghost use Rattle.dali_replacement.specs.Permit.{confirmed_table, IsNotConfirmed};
ghost use Rattle.dali_replacement.specs.Standing.{places_of};
ghost use Rattle.dali_replacement.specs.declared.refusal.ReplaceFault.{ReplaceFault};
ghost use Rattle.dali_replacement.specs.Tables.{AreGiven};
ghost use Rattle.dali_commission_said.specs.Failures.{fault_of};
ghost use Rattle.dali_commission_replaced.specs.Asking.{HasAskedOthers};
ghost use Rattle.dali_commission_replaced.specs.Cut.{HasNotAskedOthers, IsMissing, IsNotInFirst};
ghost use Rattle.dali_commission_replaced.specs.Tellings.{ConfirmedTold, gear_in};

use arrayvec::ArrayVec;
use dali_commission_said::{
    Failure, Manner, Report, Said, Voice, Which, failure_of, push_places, say, say_all,
};
use dali_commission_tasks::Replacement;
use dali_commissioning::{DriverLink, Reply, ask};
use dali_replacement::{
    Come, Confirmed, OthersThere, ReplaceFault, ReplaceRefusal, Standing, Vacant,
};
use dali_script::Kept;
use std::io::{Read, Write};

/// How many gear are in the first of some tables.
fn gear_in(tables: &[Kept]) -> usize
    ensures { result ≡ gear_in tables.now }
{
    match tables {
        [table, ..] => table.enrolled().len(),
        [] => 0,
    }
}

/// Who asks the bus.
#[derive(Drop)]
pub(crate) struct Asking<'a, S> {
    pub system: &'a S,
    pub wanted: &'a Replacement,
    pub manner: Manner,
}

impl<S: Voice> Asking<'_, S> {
    /// Why the luminaire is not replaced.
    pub fn refusal(&self, refusal: ReplaceRefusal) -> Failure
        ensures { result ≡ Failure.NotReplaced self.now.wanted.now.short refusal }
    {
        Failure::NotReplaced(self.wanted.short, refusal)
    }

    /// The same, or why not all was asked, at this line of the driver.
    pub fn fault<R: Read, W: Write>(
        &self,
        fault: ReplaceFault,
        driver: &DriverLink<R, W>,
    ) -> Failure
        ensures { result ≡ fault_of self.now.wanted.now.short fault (lines_of driver.now) }
    {
        match fault {
            ReplaceFault::Refused(refusal) => self.refusal(refusal),
            ReplaceFault::Commission(fault) => failure_of(fault, driver.lines()),
        }
    }

    /// Says where others than recorded stand.
    fn say_missing(&self, standing: &Standing, report: &mut Report) -> Failure
        requires { length (places_of standing.now) ≤ 64 }
        ensures { IsMissing true self.now.wanted.now.short (places_of standing.now) result report.old report.new }
    {
        report.note_wrong(standing.places());
        let mut wrong = ArrayVec::new();
        push_places(&mut wrong, Which::Wrong, 0, &report.places);
        say_all(self.system, &wrong);
        self.refusal(ReplaceRefusal::NotThere)
    }

    /// No gear has the short address, or the new one has it, if an earlier call has come so far; and all other gear
    /// of the tables are there, but those that are known to be gone.
    pub fn others_there<R: Read, W: Write>(
        &self,
        driver: &mut DriverLink<R, W>,
        come: Come,
        table: Kept,
        report: &mut Report,
    ) -> Result<OthersThere, Failure>
        ensures asked { IfOk result (λ _. HasAskedOthers self.now.wanted.now.short come table
            self.now.wanted.now.missing.items
            (talk_of R.remaining W.contents driver.old) (talk_of R.remaining W.contents driver.new)) }
        ensures short { IfOk result (λ others. others_at others ≡ self.now.wanted.now.short) }
        ensures come { IfOk result (λ others. others_come others ≡ come) }
        ensures table { IfOk result (λ others. others_table others ≡ table) }
        ensures noted { IfOk result (λ _. report.new ≡ report.old) }
        ensures failed { IfErr result (λ failure. HasNotAskedOthers (has_heard driver.new)
            self.now.wanted.now.short come table self.now.wanted.now.missing.items failure report.old report.new
            (talk_of R.remaining W.contents driver.old) (talk_of R.remaining W.contents driver.new)) }
    {
        if self.manner != Manner::Quiet {
            say(self.system, &Said::AsksTables);
        }
        let vacant = match Vacant::ask(driver, self.wanted.short, come) {
            Ok(vacant) => vacant,
            Err(fault) => return Err(self.fault(fault, driver)),
        };
        let standing = match Standing::ask(driver, table) {
            Ok(standing) => standing,
            Err(fault) => return Err(failure_of(fault, driver.lines())),
        };
        if standing.are_there(&self.wanted.missing) {
            Ok(vacant.beside(standing, &self.wanted.missing))
        } else if driver.has_heard() {
            Err(self.say_missing(&standing, report))
        } else {
            Err(Failure::NobodyAnswered)
        }
    }

    /// The new gear has not got the address: who answers there is asked.
    pub fn not_given<R: Read, W: Write>(&self, driver: &mut DriverLink<R, W>) -> Failure
        ensures { IsNotInFirst self.now.wanted.now.short result
            (talk_of R.remaining W.contents driver.old) (talk_of R.remaining W.contents driver.new) }
    {
        match ask(driver, self.wanted.short) {
            Ok(Reply::Silence | Reply::Random(_)) => self.refusal(ReplaceRefusal::NotGiven),
            Ok(Reply::Noise | Reply::Unclear | Reply::Several) => {
                self.refusal(ReplaceRefusal::SeveralAnswer)
            }
            Err(fault) => failure_of(fault, driver.lines()),
        }
    }

    /// The gear of the new tables has the address, and all others are there.
    pub fn confirm<R: Read, W: Write>(
        &self,
        driver: &mut DriverLink<R, W>,
        others: OthersThere,
        news: &[Kept],
    ) -> Result<Confirmed, Failure>
        ensures heard { IfOk result (λ seen. IsAnswered (others_at others) (heard.Random (confirmed_random seen))
            (talk_of R.remaining W.contents driver.old) (talk_of R.remaining W.contents driver.new)) }
        ensures given { IfOk result (λ seen. AreGiven (others_at others) (confirmed_random seen) news.now) }
        ensures short { IfOk result (λ seen. confirmed_at seen ≡ others_at others) }
        ensures table { IfOk result (λ seen. confirmed_table seen ≡ others_table others) }
        ensures failed { IfErr result (λ failure. (why : ReplaceFault) × (line : ℕ)
            × (failure ≡ fault_of self.now.wanted.now.short why line)
            × IsNotConfirmed (others_at others) news.now why
            (talk_of R.remaining W.contents driver.old) (talk_of R.remaining W.contents driver.new)) }
    {
        match Confirmed::ask(driver, others, news) {
            Ok(confirmed) => Ok(confirmed),
            Err(fault) => Err(self.fault(fault, driver)),
        }
    }

    /// Says which gear has the short address, and how many are in each new table.
    pub fn say_confirmed(&self, confirmed: &Confirmed, news: &[Kept])
        ensures { ConfirmedTold (S.told self.now.system.now) (confirmed_at confirmed.now)
            (confirmed_random confirmed.now) news.now }
    {
        let (short, random) = (confirmed.short().number(), confirmed.random());
        say(self.system, &Said::Replaced(short, random, gear_in(news)));
    }
}
