//! Whether lists of pairs are those of a controller's records.

ghost use Rattle.std.specs.Prelude.{◌≡◌, ◌<◌, ◌≤◌, ◌↔◌, ℕ, false, length, slice_index_or, IsTrue};
ghost use Rattle.dali_frame.specs.Random.{MASK24};
ghost use Rattle.dali_script.specs.Records.{HasAddress, HasRandom, InBlock, AreEnrolled};
ghost use Rattle.dali_script.specs.Pairs.{AreBefore, IsLast, last_bits};

use crate::block::Block;
use crate::pair::Pair;
use crate::pairs::ROOM;

/// Whether each short address lies in the block.
pub(crate) fn are_within(block: Block, pairs: &[Pair]) -> bool
    ensures { IsTrue result ↔ ((a : ℕ) → HasAddress pairs.now a → InBlock block a) }
{
    let first = block.first.number();
    let last = block.last.number();
    for pair in pairs {
        let address = pair.address();
        if address < first || last < address {
            return false;
        }
    }
    true
}

/// Whether each short address and each random address stands once, the first below 64 and the second below `FFFFFF`.
///
/// It goes over the pairs once. A random address is compared with those before it that have the same last six bits: of
/// each pair it is kept where the one before it with these bits stands, and for all bits where the last one does.
pub(crate) fn are_enrolled(pairs: &[Pair]) -> bool
    ensures { IsTrue result ↔ AreEnrolled pairs.now }
{
    if pairs.len() > ROOM {
        return false;
    }
    let mut taken = [false; ROOM];
    let mut lasts = [0; ROOM];
    let mut befores = [0; ROOM];
    for place in 0..pairs.len() as u8 {
        let pair = &pairs[usize::from(place)];
        let bits = usize::from(pair.last_bits());
        let last = lasts[bits];
        if !is_free(pair, &taken) || is_among(&pairs[..usize::from(place)], &befores, last, pair) {
            return false;
        }
        taken[usize::from(pair.address())] = true;
        befores[usize::from(place)] = last;
        lasts[bits] = place + 1;
    }
    true
}

/// Whether a pair's short address is one that is not taken, and its random address one that gear draw.
#[inline(always)]
fn is_free(pair: &Pair, taken: &[bool; ROOM]) -> bool
    ensures { IsTrue result ↔ ((pair.now.0 < 64) × (slice_index_or taken.now pair.now.0 false ≡ false)
        × (pair.now.1 < MASK24)) }
{
    let address = usize::from(pair.address());
    address < ROOM && !taken[address] && pair.is_drawn()
}

/// Whether a random address stands in one of the pairs before, the last of which with its last bits stands before this
/// place.
#[inline(always)]
fn is_among(before: &[Pair], befores: &[u8; ROOM], last: u8, wanted: &Pair) -> bool
    requires room { length before.now ≤ 64 }
    requires befores { AreBefore before.now (length before.now) befores.now }
    requires last { IsLast before.now (length before.now) (last_bits wanted.now.1) last }
    ensures { IsTrue result ↔ HasRandom before.now wanted.now.1 }
{
    let mut at = last;
    while at > 0 {
        let place = usize::from(at - 1);
        if before[place].shares_random(wanted) {
            return true;
        }
        at = befores[place];
    }
    false
}
