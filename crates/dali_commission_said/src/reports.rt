//! What is to be said of what came of a task, decided before anything is said.

ghost use Rattle.std.specs.Prelude.{◌≡◌, ◌++◌, ◌+◌, ◌≤◌, length, count_by};
ghost use Rattle.dali_commission_said.specs.Said.{is_wanted, place_said, places_said, heard_said, conflict_said};
ghost use Rattle.dali_commission_said.specs.Said.{ConflictSaid, is_passed, with_passed, with_all_passed};
ghost use Rattle.dali_commission_said.specs.Said.{with_passed_over, gave_up_said, WhySaid, wrote_said};

use crate::failure::Failure;
use crate::progress::Aim;
use crate::said::Said;
use arrayvec::ArrayVec;
use dali_commissioning::{DriverFault, Ended, PassEnd, Passed, Place, Tally, random_at};
use dali_frame::{Random24, Short};
use dali_script::{End, Fault, Kept};

/// What is to be said, in order: of each short address once at most, and some lines more.
pub type Saying = ArrayVec<Said<'static>, 80>;

/// Which places are said.
#[derive(Clone, Copy)]
pub enum Which {
    /// Those at which there is something.
    All,
    /// Those whose gear of the table are not there, or at which others answer.
    Wrong,
    /// Those at which a gear answers that no record names.
    Strange,
}

/// Whether a place is one of these.
pub fn is_wanted(which: Which, place: Place) -> bool
    ensures { result ≡ is_wanted which place }
{
    match place {
        Place::NotAsked | Place::Nobody => false,
        Place::There(_) | Place::Unfinished(_) => matches!(which, Which::All),
        Place::Missing(_) | Place::Another(..) | Place::Several(_) | Place::Unclear(_) => {
            !matches!(which, Which::Strange)
        }
        Place::Stranger(_) | Place::Strangers | Place::Garbled | Place::Noise => {
            !matches!(which, Which::Wrong)
        }
    }
}

/// How many places are.
pub fn count(which: Which, places: &[Place]) -> usize
    ensures { result ≡ count_by (λ place. is_wanted which place) places.now }
{
    places
        .iter()
        .filter(|place| is_wanted(which, **place))
        .count()
}

fn push_place(said: &mut Saying, which: Which, number: u8, place: &Place)
    requires { length said.old.items + 1 ≤ 80 }
    ensures said { said.new.items ≡ said.old.items ++ place_said which number place.now }
    ensures room { length said.new.items ≤ length said.old.items + 1 }
{
    if is_wanted(which, *place) {
        said.push(Said::At(number, *place));
    }
}

/// Which places are said, from this short address on.
#[tactic(auto, using(std::proofs::lemmas::List::append_assoc))]
pub fn push_places(said: &mut Saying, which: Which, number: u8, places: &[Place])
    requires number { number + length places.now ≤ 64 }
    requires room { length said.old.items + length places.now ≤ 80 }
    ensures said { said.new.items ≡ said.old.items ++ places_said which number places.now }
    ensures room { length said.new.items ≤ length said.old.items + length places.now }
{
    if let [place, more @ ..] = places {
        push_place(said, which, number, place);
        push_places(said, which, number + 1, more);
    }
}

/// Which short addresses were left alone.
#[tactic(auto, using(std::proofs::lemmas::List::append_assoc))]
pub fn push_left_alone(said: &mut Saying, numbers: &[u8])
    requires { length said.old.items + length numbers.now ≤ 80 }
    ensures said { said.new.items ≡ said.old.items ++ heard_said numbers.now }
    ensures room { length said.new.items ≤ length said.old.items + length numbers.now }
{
    if let [number, more @ ..] = numbers {
        said.push(Said::LeftAlone(*number));
        push_left_alone(said, more);
    }
}

/// How a gear that was found contradicts the table, which has a gear under its short address, or has it under another.
fn conflict(
    short: Short,
    random: Random24,
    other: Option<Random24>,
    place: Option<Short>,
) -> Option<Said<'static>>
    ensures { result ≡ conflict_said short random other place }
{
    let at = short.number();
    match (other, place) {
        (Some(other), _) if other != random => Some(Said::OtherGear(at, random, other)),
        (_, Some(place)) => Some(Said::OtherPlace(random, at, place.number())),
        (_, None) => None,
    }
}

/// How the gear that was found last contradicts the table, and what can be done.
fn push_conflict(said: &mut Saying, pass: &PassEnd, kept: &Kept)
    requires { length said.old.items + 2 ≤ 80 }
    ensures said { ConflictSaid said.old.items pass.now.found kept.now said.new.items }
    ensures room { length said.new.items ≤ length said.old.items + 2 }
{
    let Some(found) = pass.found else {
        return;
    };
    let (short, random) = found.assigned();
    let other = random_at(kept.enrolled(), short);
    if let Some(line) = conflict(short, random, other, kept.enrolled_for(random)) {
        said.push(line);
    }
    said.push(Said::ConflictAdvice);
}

/// Whether it is said already that the gear with this random address was passed over.
fn is_passed(said: &[Said<'static>], number: Random24) -> bool
    ensures { result ≡ is_passed said.now number }
{
    said.iter().any(|line| match *line {
        Said::PassedOver(other) => other == number,
        _ => false,
    })
}

fn push_one_passed(said: &mut Saying, number: Random24)
    requires { length said.old.items + 1 ≤ 80 }
    ensures said { said.new.items ≡ with_passed said.old.items number }
    ensures room { length said.new.items ≤ length said.old.items + 1 }
{
    if !is_passed(said, number) {
        said.push(Said::PassedOver(number));
    }
}

/// The gear that were passed over, each by its random address once: it may have been so after several roll calls.
fn push_passed(said: &mut Saying, numbers: &[Random24])
    requires { length said.old.items + length numbers.now ≤ 80 }
    ensures said { said.new.items ≡ with_all_passed said.old.items numbers.now }
    ensures room { length said.new.items ≤ length said.old.items + length numbers.now }
{
    if let [number, more @ ..] = numbers {
        push_one_passed(said, *number);
        push_passed(said, more);
    }
}

/// The gear that were passed over. Of more than eight times the machine does not know which.
fn push_passed_over(said: &mut Saying, passed: &Passed)
    requires { length said.old.items + 9 ≤ 80 }
    ensures said { said.new.items ≡ with_passed_over said.old.items passed.now }
    ensures room { length said.new.items ≤ length said.old.items + 9 }
{
    let count = usize::from(passed.count).min(8);
    let known = &passed.numbers[..count];
    push_passed(said, known);
    if passed.count > 8 {
        said.push(Said::MorePassedOver);
    }
}

/// Why the last machine gave up.
fn gave_up(tries: u8, tally: &Tally, aim: Aim) -> Said<'static>
    ensures { result ≡ gave_up_said tries tally.now aim }
{
    if tries >= 8 {
        Said::Lost(aim)
    } else if tally.calls >= 3 && tally.passed.count > 0 {
        Said::OthersServed
    } else if tally.draws >= 3 {
        Said::Undrawn
    } else {
        Said::Searches(aim)
    }
}

/// Why the last machine ended so, if that needs to be said.
pub fn push_why_ended(said: &mut Saying, pass: &PassEnd, kept: &Kept, aim: Aim)
    requires { length said.old.items + 10 ≤ 80 }
    ensures said { WhySaid said.old.items pass.now kept.now aim said.new.items }
    ensures room { length said.new.items ≤ length said.old.items + 10 }
{
    match pass.ended {
        Ended::Done(End::GaveUp) => {
            if pass.tries < 8 {
                push_passed_over(said, &pass.tally.passed);
            }
            said.push(gave_up(pass.tries, &pass.tally, aim));
        }
        Ended::Halted(Fault::Conflict) => push_conflict(said, pass, kept),
        Ended::Done(End::AllFound | End::BlockFull) | Ended::Halted(Fault::Store) => {}
    }
}

/// If a task ended by a line of the driver: the line itself, as far as it was read.
pub fn wrote_said(failure: Failure, line: &[u8]) -> Option<Said<'_>>
    ensures { result ≡ wrote_said failure line.entry }
{
    // No other failure is one of a line.
    let Failure::Driver(_, fault) = failure else {
        return None;
    };
    match fault {
        DriverFault::BadLine | DriverFault::LongLine | DriverFault::TornLine => {
            Some(Said::Wrote(line))
        }
        DriverFault::Ended | DriverFault::Read | DriverFault::Write | DriverFault::Memory => None,
    }
}
