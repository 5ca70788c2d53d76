//! What stands under each short address, beside the records, by what was heard there.

ghost use Rattle.std.specs.Prelude.{◌≡◌, slice_index_or};
ghost use Rattle.dali_commissioning.specs.declared.census.Reply.TheVariants as reply;
ghost use Rattle.dali_commissioning.specs.Places.{random_at, enrolled_place, strange_place, unnamed_place};
ghost use Rattle.dali_commissioning.specs.Places.{place_by, place_of};
ghost use Rattle.dali_commissioning.specs.Places.{places, is_as_recorded, is_any_wrong, are_as_recorded};

use crate::census::{Reply, has_block, is_silent};
use arrayvec::ArrayVec;
use dali_frame::{Random24, Short};
use dali_script::{Block, Kept, Pair};

/// What stands under a short address.
#[derive(Clone, Copy, Default, PartialEq, Eq)]
pub enum Place {
    /// It lies in the block of another controller, and was not asked.
    NotAsked,
    /// No gear is enrolled with it, and no gear answers.
    #[default]
    Nobody,
    /// The gear with this random address is enrolled with it, and answers.
    There(Random24),
    /// The gear with this random address is enrolled with it, and no gear answers.
    Missing(Random24),
    /// The gear with the first random address is enrolled with it, and one with the second answers.
    Another(Random24, Random24),
    /// The gear with this random address is enrolled with it, and several answer.
    Several(Random24),
    /// The gear with this random address is enrolled with it, and something answers that spells no random address:
    /// several gear together, or the bus is disturbed.
    Unclear(Random24),
    /// It is reserved for the gear with this random address, which is not enrolled, and gear answers.
    Unfinished(Random24),
    /// No record names it, and a gear with this random address answers.
    Stranger(Random24),
    /// No record names it, and several gear answer.
    Strangers,
    /// No record names it, and bytes are heard that spell no random address.
    Garbled,
    /// No record names it, and something is heard, never a byte.
    Noise,
}

/// The random address of the first pair with a short address.
pub fn random_at(pairs: &[Pair], short: Short) -> Option<Random24>
    ensures { result ≡ random_at pairs.now short }
{
    for pair in pairs {
        if pair.address() == short.number() {
            return Some(pair.random());
        }
    }
    None
}

/// Where a gear stands that is enrolled with this random address, by what was heard of its short address.
fn enrolled_place(random: Random24, reply: Reply) -> Place
    ensures { result ≡ enrolled_place random reply }
{
    match reply {
        Reply::Silence => Place::Missing(random),
        Reply::Noise | Reply::Unclear => Place::Unclear(random),
        Reply::Random(heard) => {
            if heard == random {
                Place::There(random)
            } else {
                Place::Another(random, heard)
            }
        }
        Reply::Several => Place::Several(random),
    }
}

/// Who answers to a short address that no record names.
fn strange_place(reply: Reply) -> Place
    ensures { result ≡ strange_place reply }
{
    match reply {
        Reply::Silence => Place::Nobody,
        Reply::Noise => Place::Noise,
        Reply::Unclear => Place::Garbled,
        Reply::Random(heard) => Place::Stranger(heard),
        Reply::Several => Place::Strangers,
    }
}

/// What answers to a short address with which no gear is enrolled.
fn unnamed_place(reserved: Option<Random24>, reply: Reply) -> Place
    ensures { result ≡ unnamed_place reserved reply }
{
    match reserved {
        Some(random) => {
            if is_silent(reply) {
                Place::Nobody
            } else {
                Place::Unfinished(random)
            }
        }
        None => strange_place(reply),
    }
}

fn place_by(enrolled: Option<Random24>, reserved: Option<Random24>, reply: Reply) -> Place
    ensures { result ≡ place_by enrolled reserved reply }
{
    match enrolled {
        Some(random) => enrolled_place(random, reply),
        None => unnamed_place(reserved, reply),
    }
}

fn place_of(kept: &Kept, others: &[Block], short: Short, reply: Reply) -> Place
    ensures { result ≡ place_of kept.now others.now short reply }
{
    if has_block(others, short) {
        return Place::NotAsked;
    }
    let enrolled = random_at(kept.enrolled(), short);
    let reserved = random_at(kept.reserved(), short);
    place_by(enrolled, reserved, reply)
}

fn reply_at(replies: &[Reply], number: u8) -> Reply
    ensures { result ≡ slice_index_or replies.now number reply.Silence }
{
    match replies.get(number as usize) {
        Some(reply) => *reply,
        None => Reply::Silence,
    }
}

/// What stands under each short address, from 0 on, by the replies of a census.
#[tactic(auto, using(crate::proofs::Standings::none, crate::proofs::Standings::one_more))]
pub fn places(kept: &Kept, others: &[Block], replies: &[Reply]) -> ArrayVec<Place, 64>
    ensures places { result.items ≡ places kept.now others.now replies.now }
{
    let mut places = ArrayVec::new();
    for number in 0..64u8 {
        let Some(short) = Short::of(number) else {
            // Each number of the loop is below 64.
            unreachable!();
        };
        places.push(place_of(kept, others, short, reply_at(replies, number)));
    }
    places
}

/// Whether what stands under a short address is as the records have it: the gear that is enrolled is there, or none is
/// enrolled and no gear answers.
pub fn is_as_recorded(place: Place) -> bool
    ensures { result ≡ is_as_recorded place }
{
    match place {
        Place::NotAsked | Place::Nobody | Place::There(_) => true,
        Place::Missing(_)
        | Place::Another(..)
        | Place::Several(_)
        | Place::Unclear(_)
        | Place::Unfinished(_)
        | Place::Stranger(_)
        | Place::Strangers
        | Place::Garbled
        | Place::Noise => false,
    }
}

fn is_any_wrong(places: &[Place]) -> bool
    ensures { result ≡ is_any_wrong places.now }
{
    places.iter().any(|place| !is_as_recorded(*place))
}

/// Whether all gear that are enrolled are there, and no other gear answers.
pub fn are_as_recorded(places: &[Place]) -> bool
    ensures { result ≡ are_as_recorded places.now }
{
    !is_any_wrong(places)
}
