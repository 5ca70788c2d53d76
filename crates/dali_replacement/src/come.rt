//! How far an earlier call has come, by the new records that it has left; and what may be heard of the short address
//! then.

ghost use Rattle.std.specs.Prelude.{◌≡◌, ◌==◌};
ghost use Rattle.std.specs.List.{list_any};
ghost use Rattle.dali_script.specs.Records.{is_pair};
ghost use Rattle.dali_replacement.specs.Come.{is_foreign, has_foreign, has_other, has_random, giver_come, other_come};
ghost use Rattle.dali_replacement.specs.Come.{may_go_on, come_of};
ghost use Rattle.dali_replacement.specs.Come.{going_on, is_silent, is_random, may_be_heard, refusal_of, refusal};

use crate::refusal::ReplaceRefusal;
use dali_commissioning::{Reply, random_at};
use dali_frame::{Random24, Short};
use dali_script::{Kept, Pair};

/// How far an earlier call has come.
#[derive(Clone, Copy, PartialEq, Eq)]
pub enum Come {
    /// The short address is not reserved in the giver's new records.
    Nowhere,
    /// It is reserved there for the gear with this random address.
    Reserved(Random24),
    /// This gear has it, and the new records are being filled.
    Given(Random24),
}

fn stands(pairs: &[Pair], pair: Pair) -> bool
    ensures { result ≡ list_any (λ q. is_pair pair q) pairs.now }
{
    pairs.iter().any(|other| other.address() == pair.address() && other.random() == pair.random())
}

fn is_at(short: Short, pair: Pair) -> bool
    ensures { result ≡ (pair.0 == short) }
{
    pair.address() == short.number()
}

/// Whether a pair is of another short address, and not one of these.
fn is_foreign(short: Short, pair: Pair, old: &[Pair]) -> bool
    ensures { result ≡ is_foreign short pair old.now }
{
    !is_at(short, pair) && !stands(old, pair)
}

/// Whether one of some pairs is.
fn has_foreign(short: Short, new: &[Pair], old: &[Pair]) -> bool
    ensures { result ≡ has_foreign short new.now old.now }
{
    new.iter().any(|pair| is_foreign(short, *pair, old))
}

/// Whether one of some pairs is of another short address.
fn has_other(short: Short, new: &[Pair]) -> bool
    ensures { result ≡ has_other short new.now }
{
    new.iter().any(|pair| !is_at(short, *pair))
}

/// Whether a gear has this random address.
fn has_random(random: Random24, old: &[Pair]) -> bool
    ensures { result ≡ has_random random old.now }
{
    old.iter().any(|pair| pair.random() == random)
}

/// By what the records of the one who gives have of the short address.
fn giver_come(reserved: Option<Random24>, enrolled: Option<Random24>) -> Option<Come>
    ensures { result ≡ giver_come reserved enrolled }
{
    match (reserved, enrolled) {
        (None, None) => Some(Come::Nowhere),
        (Some(random), None) => Some(Come::Reserved(random)),
        (None, Some(_)) => None,
        (Some(random), Some(other)) => {
            if random == other {
                Some(Come::Given(random))
            } else {
                None
            }
        }
    }
}

/// By what the records of another one have of it.
fn other_come(reserved: Option<Random24>, enrolled: Option<Random24>) -> Option<Come>
    ensures { result ≡ other_come reserved enrolled }
{
    match (reserved, enrolled) {
        (None, None) => Some(Come::Nowhere),
        (None, Some(random)) => Some(Come::Given(random)),
        (Some(_), _) => None,
    }
}

/// Whether new records are of this replacement that have come so far.
fn may_go_on(come: &Come, short: Short, new: &Kept, old: &Kept) -> bool
    ensures { result ≡ may_go_on come.now short new.now old.now }
{
    match *come {
        Come::Nowhere => !has_other(short, new.reserved()),
        Come::Reserved(random) => {
            !has_other(short, new.reserved()) && !has_random(random, old.enrolled())
        }
        Come::Given(random) => {
            !has_foreign(short, new.reserved(), old.reserved())
                && !has_random(random, old.enrolled())
        }
    }
}

fn going_on(come: Come, short: Short, new: &Kept, old: &Kept) -> Option<Come>
    ensures { result ≡ going_on (Some come) short new.now old.now }
{
    if may_go_on(&come, short, new, old) {
        Some(come)
    } else {
        None
    }
}

fn is_silent(reply: &Reply) -> bool
    ensures { result ≡ is_silent reply.now }
{
    match *reply {
        Reply::Silence => true,
        Reply::Noise | Reply::Unclear | Reply::Random(_) | Reply::Several => false,
    }
}

fn is_random(random: Random24, reply: &Reply) -> bool
    ensures { result ≡ is_random random reply.now }
{
    match *reply {
        Reply::Random(heard) => heard == random,
        Reply::Silence | Reply::Noise | Reply::Unclear | Reply::Several => false,
    }
}

/// Why a luminaire is not replaced if this is heard in place of the new one.
pub(crate) fn refusal_of(reply: Reply) -> ReplaceRefusal
    ensures { result ≡ refusal_of reply }
{
    match reply {
        Reply::Silence => ReplaceRefusal::NewSilent,
        Reply::Random(_) => ReplaceRefusal::AnotherAnswers,
        Reply::Noise | Reply::Unclear | Reply::Several => ReplaceRefusal::SeveralAnswer,
    }
}

/// Nothing is heard, or this gear.
fn is_silent_or(random: Random24, reply: &Reply) -> bool
    ensures { result ≡ may_be_heard (Come.Reserved random) reply.now }
{
    match *reply {
        Reply::Silence => true,
        Reply::Random(heard) => heard == random,
        Reply::Noise | Reply::Unclear | Reply::Several => false,
    }
}

impl Come {
    /// How far an earlier call has come, by what the new records of a name have beside the old ones. The giver's
    /// reserve the short address first; then the gear is enrolled with it, as in those of the others; and what the old
    /// ones reserve comes last. None if it is anything else, as of another replacement.
    pub fn of(new: &Kept, old: &Kept, short: Short, is_giver: bool) -> Option<Come>
        ensures { result ≡ come_of is_giver short new.now old.now }
    {
        let reserved = random_at(new.reserved(), short);
        let enrolled = random_at(new.enrolled(), short);
        let come = if is_giver {
            giver_come(reserved, enrolled)
        } else {
            other_come(reserved, enrolled)
        };
        match come {
            Some(come) => going_on(come, short, new, old),
            None => None,
        }
    }

    /// Whether this may be heard of the short address: nothing as long as the new gear may not have it, and the new
    /// gear once it may.
    pub fn may_be_heard(&self, reply: &Reply) -> bool
        ensures { result ≡ may_be_heard self.now reply.now }
    {
        match *self {
            Come::Nowhere => is_silent(reply),
            Come::Reserved(random) => is_silent_or(random, reply),
            Come::Given(random) => is_random(random, reply),
        }
    }

    /// Why a luminaire is not replaced if this is heard, and may not be.
    pub fn refusal(&self, reply: Reply) -> ReplaceRefusal
        ensures { result ≡ refusal self.now reply }
    {
        match *self {
            Come::Nowhere => ReplaceRefusal::Answered,
            Come::Reserved(_) | Come::Given(_) => refusal_of(reply),
        }
    }
}
