//! All that the program says on standard error but how it uses its command line: each a value, with its text.

ghost use Rattle.std.specs.Prelude.{◌≡◌, Err};
ghost use Rattle.dali_commission_said.specs.Said.{why_said, AreTold};

use crate::failure::{Failure, StoreFault};
use crate::progress::{Aim, Far};
use dali_commissioning::Place;
use dali_console::ConsoleFault;
use dali_frame::{Random24, Short};
use dali_mending::Outcome;
use std::fmt;
use std::io::Eprint;
use thiserror::Error;

const ADVICE: &str = "\
What can be done:
- they belong to another controller of this kind: name its block, as --others 16-31
- they were used before: run without --start fresh, which enrols them; or bring them to the factory's state, as
  docs/INSTALLER.md says, and run again
- they are this controller's: take the file of its records";

const CONFLICT: &str = "\
What can be done: see whether the file is an old copy, or a luminaire was replaced or was given an address by another
tool; docs/INSTALLER.md says how to go on, under 'A luminaire that is replaced'";

/// What the program says.
#[derive(Clone, Copy, Default, Error)]
pub enum Said<'a> {
    #[default]
    #[error("asking the short addresses that are not accounted for")]
    AsksAddresses,
    #[error("asking the luminaires of the tables")]
    AsksTables,
    #[error("{0}")]
    Far(Far),
    #[error(fmt = write_place)]
    At(u8, Place),
    #[error("{0} - a gear answers, but its random address was not heard; left alone")]
    LeftAlone(u8),
    #[error("{advice}", advice = ADVICE)]
    Advice,
    #[error("a frame of one transaction was destroyed or not sent, eight times in a row: the frames {0}")]
    Lost(Aim),
    #[error("too many searches in a row led to a gear that did not answer; the last frames were {0}")]
    Searches(Aim),
    #[error("random address {0}: a gear answers there, but told no short address when it was asked")]
    PassedOver(Random24),
    #[error("more gear may be there that told no short address when they were asked")]
    MorePassedOver,
    #[error("all other gear that answered were served")]
    OthersServed,
    #[error("gear without short address are there that draw no random address, or whose answers are not heard")]
    Undrawn,
    /// The gear has the first random address, and the table has the second one.
    #[error("short address {0}: a gear with random address {1} answers, but the table has {2} there")]
    OtherGear(u8, Random24, Random24),
    /// The gear answers at the first short address, and the table has it at the second one.
    #[error("random address {0}: it answers at short address {1}, but the table has it at {2}")]
    OtherPlace(Random24, u8, u8),
    #[error("{advice}", advice = CONFLICT)]
    ConflictAdvice,
    #[error("{0} gear were enrolled, {1} are in the table; {2} frames")]
    Commissioned(usize, usize, u64),
    #[error("gear without short address are there: run")]
    Unaddressed,
    #[error("{0} in the table, {1} of them not there; {2} strangers; {3} addresses reserved")]
    Counted(usize, usize, usize, usize),
    /// A line of the driver, which may be any bytes.
    #[error(fmt = write_line)]
    Wrote(&'a [u8]),
    #[error("going on with what an earlier call began")]
    GoneOn,
    #[error("{0} {1} the new luminaire has the address; {2} gear are in each table")]
    Replaced(u8, Random24, usize),
    #[error("{0}: the old file is kept as {1}")]
    KeptAs(&'a str, &'a str),
    #[error("{0}: put aside as {1}")]
    Aside(&'a str, &'a str),
    #[error("short address {0}: the files that an earlier call began to exchange are exchanged now")]
    Exchanged(u8),
    #[error("short address {0}: a replacement was stopped before it changed a file; it goes on now")]
    TakenBack(u8),
    #[error("what lies beside the files is not what a replacement leaves; docs/INSTALLER.md says what to do")]
    NoMoment,
    #[error("error: the files cannot be exchanged: {0}")]
    NotExchanged(StoreFault),
    #[error("asking all short addresses")]
    AsksAll,
    #[error("short address {0}: telling gear apart")]
    Mends(u8),
    /// How the mending of a short address has ended.
    #[error(fmt = write_mended)]
    Mended(u8, Outcome),
    /// The gear with this random address has lost a short address, and has another one now, if it has one.
    #[error(fmt = write_lost)]
    HasLost(u8, Random24, Option<Short>),
    #[error("not all gear were told apart, so none was enrolled: mend again")]
    NotSurveyed,
    #[error("taking all short addresses away, round {0}")]
    Clears(u8),
    #[error("no gear answers at a short address any more")]
    Cleared,
    #[error("error: {0}: {1}")]
    Refused(&'a str, StoreFault),
    #[error("{0}")]
    Why(Failure),
}

impl fmt::Debug for Said<'_> {
    fn fmt<W: fmt::Write>(&self, f: &mut fmt::Formatter<W>) -> fmt::Result {
        write!(f, "{self}")
    }
}

fn write_byte<W: fmt::Write>(f: &mut fmt::Formatter<W>, byte: u8) -> fmt::Result {
    if byte.is_ascii_graphic() || byte == b' ' {
        f.write_char(char::from(byte))
    } else {
        write!(f, "\\x{byte:02X}")
    }
}

fn write_line<W: fmt::Write>(line: &&[u8], f: &mut fmt::Formatter<W>) -> fmt::Result {
    f.write_str("the driver wrote '")?;
    for byte in line.iter() {
        write_byte(f, *byte)?;
    }
    f.write_str("'")
}

/// What is so of a short address, and of the gear with a random address, if it is known.
fn write_gear<W: fmt::Write>(
    f: &mut fmt::Formatter<W>,
    at: &u8,
    random: Option<Random24>,
    text: &str,
) -> fmt::Result {
    match random {
        Some(random) => write!(f, "{at} {random} {text}"),
        None => write!(f, "{at} - {text}"),
    }
}

/// What stands under a short address.
fn write_place<W: fmt::Write>(at: &u8, place: &Place, f: &mut fmt::Formatter<W>) -> fmt::Result {
    let (random, text) = match *place {
        Place::NotAsked | Place::Nobody => (None, ""),
        Place::There(random) => (Some(random), "there"),
        Place::Missing(random) => (Some(random), "missing"),
        Place::Another(random, heard) => {
            return write!(f, "{at} {random} another gear answers: {heard}");
        }
        Place::Several(random) => (Some(random), "several gear answer"),
        Place::Unclear(random) => (Some(random), "several gear answer, or the bus is disturbed"),
        Place::Unfinished(random) => (
            Some(random),
            "is reserved, and not in the table; a gear answers",
        ),
        Place::Stranger(random) => (Some(random), "stranger"),
        Place::Strangers => (None, "several strangers"),
        Place::Garbled => (None, "strangers that were not understood"),
        Place::Noise => (None, "several strangers, or a disturbed bus"),
    };
    write_gear(f, at, random, text)
}

/// How the mending of a short address has ended.
fn write_mended<W: fmt::Write>(
    at: &u8,
    outcome: &Outcome,
    f: &mut fmt::Formatter<W>,
) -> fmt::Result {
    let text = match outcome {
        Outcome::Kept(_) => "one gear alone answers, and keeps it",
        Outcome::Nobody => "no gear answers any more",
        Outcome::Another(_) => "answers alone, but the table has another gear there: replace it",
        Outcome::Missing(_) =>
            "is in the table and was not heard under its random address; left as it is",
        Outcome::Twins(_) =>
            "several gear have this random address, or its answers are weak; left as it is",
        Outcome::Lost => "given up: frames were lost eight times in a row",
        Outcome::Spent => "given up: no gear was told apart any more",
    };
    let random = match *outcome {
        Outcome::Kept(it) | Outcome::Another(it) | Outcome::Missing(it) | Outcome::Twins(it) =>
            Some(it),
        Outcome::Nobody | Outcome::Lost | Outcome::Spent => None,
    };
    write_gear(f, at, random, text)
}

/// Who has lost a short address.
fn write_lost<W: fmt::Write>(
    at: &u8,
    random: &Random24,
    now: &Option<Short>,
    f: &mut fmt::Formatter<W>,
) -> fmt::Result {
    if *random == Random24::MASK {
        let text = "gear without random address lost it, and draw one";
        return write_gear(f, at, None, text);
    }
    match now {
        Some(short) => {
            let number = short.number();
            write!(f, "{at} {random} lost it, and has {number} now")
        }
        None => write_gear(f, at, Some(*random), "lost it, and has none yet"),
    }
}

/// Who says what the program does, on standard error. Contracts see which lines were said.
///
/// It writes nothing on standard output: there the driver reads.
pub trait Voice: Eprint {
    ghost use Rattle.dali_commission_said.specs.declared.said.Said.{Said};

    ghost told: { Self → Said → Type 0 };

    /// Says a line. If it cannot be said, nothing else changes.
    fn tell(&self, said: &Said<'_>)
        ensures { told self.now said.now };
}

impl<S: Eprint> Voice for S {
    ghost use Rattle.dali_commission_said.specs.Said.{IsTold};

    ghost told = { IsTold };

    #[tactic(auto, unfolding(crate::specs::Said::IsTold))]
    fn tell(&self, said: &Said<'_>) {
        let _ = eprintln!(self; "{said}");
    }
}

/// Says a line.
pub fn say<S: Voice>(system: &S, said: &Said<'_>)
    ensures { S.told system.now said.now }
{
    system.tell(said);
}

/// Says lines, in order.
pub fn say_all<S: Voice>(system: &S, lines: &[Said<'_>])
    ensures { AreTold (S.told system.now) lines.now }
{
    if let [said, more @ ..] = lines {
        say(system, said);
        say_all(system, more);
    }
}

/// What is said of why the program ends. None if `clap` has said it, or if it was said when the file was found
/// that cannot be had.
pub fn why_said<'a>(failure: Failure, records: Option<&'a str>) -> Option<Said<'a>>
    ensures { result ≡ why_said failure records.entry }
{
    match (failure, records) {
        (Failure::Console(ConsoleFault::BadCommandLine), _) | (Failure::Store(_), None) => None,
        (Failure::Store(fault), Some(name)) => Some(Said::Refused(name, fault)),
        // Whatever else ends it is said in its own words, also what is added to these.
        (other, _) => Some(Said::Why(other)),
    }
}

/// Says why nothing can be done under a name.
pub fn say_refused<S: Voice>(system: &S, name: &str, failure: Failure) -> Failure
    ensures same { result ≡ failure }
    ensures told { (fault : StoreFault) → failure ≡ Failure.Store fault
        → S.told system.now (Said.Refused name.entry fault) }
{
    if let Failure::Store(fault) = failure {
        say(system, &Said::Refused(name, fault));
    }
    failure
}

/// Says why something was not done under a name, if it was not.
pub fn or_say<T, S: Voice>(system: &S, name: &str, done: Result<T, Failure>) -> Result<T, Failure>
    ensures same { result ≡ done }
    ensures told { (fault : StoreFault) → done ≡ Err (Failure.Store fault)
        → S.told system.now (Said.Refused name.entry fault) }
{
    match done {
        Ok(it) => Ok(it),
        Err(failure) => Err(say_refused(system, name, failure)),
    }
}
