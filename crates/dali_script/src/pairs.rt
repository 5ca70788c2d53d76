//! Lists of pairs: how they lie in memory, and how one is found in them.

ghost use Rattle.std.specs.Prelude.{◌≡◌, ◌+◌, ◌<◌, ◌≤◌, ◌↔◌, [], ◌∷◌, ◌++◌, length, true, IsTrue};
ghost use Rattle.std.specs.Prelude.{Some, None, IfSome, MatchOption, slice_index_or, remove};
ghost use Rattle.dali_script.specs.Records.{Has, HasAddress, HasRandom, Marks, MayBeUnmatched, IsFresh};
ghost use Rattle.dali_script.specs.Pairs.{pairs_in, AreShort, IsCleared};

use crate::pair::Pair;
use crate::records::AddError;
use dali_frame::{Random24, Short};

/// How many short addresses there are, so the most pairs of a list.
pub const ROOM: usize = 64;

/// Room for a pair of each short address, in the layout of C. The first `count` are those that there are. Each further
/// place has bytes 0 alone in a list that these calls made, so the same pairs in the same order have the same bytes.
///
/// Any bytes are such a struct; of one that other code wrote, the count may be above 64.
#[repr(C)]
#[derive(Clone, Copy)]
pub struct Pairs {
    pub count: u8,
    pub pairs: [Pair; ROOM],
}

impl Pairs {
    /// No pairs.
    pub fn new() -> Pairs
        ensures none { pairs_in result ≡ [] }
        ensures count { result.count ≡ 0 }
        ensures cleared { IsCleared result }
    {
        Pairs {
            count: 0,
            pairs: [Pair::default(); ROOM],
        }
    }

    /// These pairs, oldest first.
    pub(crate) fn of(pairs: &[Pair]) -> Pairs
        requires { length pairs.now ≤ 64 }
        ensures value { pairs_in result ≡ pairs.now }
        ensures count { result.count ≡ length pairs.now }
    {
        let mut all = Pairs::new();
        for pair in pairs {
            all.push(*pair);
        }
        all
    }

    /// The pairs, oldest first.
    #[inline(always)]
    pub fn as_slice(&self) -> &[Pair]
        requires { self.now.count ≤ 64 }
        ensures value { result.now ≡ pairs_in self.now }
        ensures length { length result.now ≡ self.now.count }
    {
        &self.pairs[..usize::from(self.count)]
    }

    /// Adds a pair as the last one.
    pub fn push(&mut self, last: Pair)
        requires { self.old.count < 64 }
        ensures pairs { pairs_in self.new ≡ pairs_in self.old ++ last ∷ [] }
        ensures count { self.new.count ≡ self.old.count + 1 }
        ensures cleared { IsCleared self.old → IsCleared self.new }
    {
        self.pairs[usize::from(self.count)] = last;
        self.count += 1;
    }

    /// Takes the pair at a place away; the others stay in their order.
    pub fn remove(&mut self, place: usize)
        requires room { self.old.count ≤ 64 }
        requires place { place < self.old.count }
        ensures pairs { pairs_in self.new ≡ remove (pairs_in self.old) place }
        ensures count { self.new.count + 1 ≡ self.old.count }
        ensures cleared { IsCleared self.old → IsCleared self.new }
    {
        self.pairs
            .copy_within(place + 1..usize::from(self.count), place);
        self.count -= 1;
        self.pairs[usize::from(self.count)] = Pair::default();
    }
}

impl Pairs {
    ghost use Rattle.dali_script.specs.Records.{IsMap, without_pair};

    /// Adds a pair as the last one, if no other has its short address or its random address.
    pub fn insert(&mut self, added: Pair)
        requires room { self.old.count ≤ 64 }
        requires map { IsMap (pairs_in self.old) }
        requires fresh { IsFresh (pairs_in self.old) added }
        requires short { added.0 < 64 }
        ensures pairs { pairs_in self.new ≡ pairs_in self.old ++ added ∷ [] }
        ensures room { self.new.count ≤ 64 }
        ensures cleared { IsCleared self.old → IsCleared self.new }
    {
        // There are as many as are counted.
        let _ = self.as_slice();
        self.push(added);
    }

    /// Takes a pair away that is there; the others stay in their order.
    pub fn take_out(&mut self, gone: Pair)
        requires room { self.old.count ≤ 64 }
        requires map { IsMap (pairs_in self.old) }
        requires there { Has (pairs_in self.old) gone }
        ensures pairs { pairs_in self.new ≡ without_pair gone (pairs_in self.old) }
        ensures room { self.new.count ≤ 64 }
        ensures cleared { IsCleared self.old → IsCleared self.new }
    {
        if let Some(place) = place_of(self.as_slice(), gone) {
            self.remove(place);
        }
    }
}

/// The random address of the pair with a short address.
pub(crate) fn at_address(pairs: &[Pair], address: Short) -> Option<Random24>
    requires { length pairs.now ≤ 64 }
    ensures found { MatchOption result
        (HasAddress pairs.now address → ⊥)
        (λ random. Has pairs.now (address, random)) }
    ensures short { address < 64 }
{
    let wanted = address.number();
    for place in 0..pairs.len() as u8 {
        let pair = &pairs[usize::from(place)];
        if pair.address() == wanted {
            return Some(pair.random());
        }
    }
    None
}

/// The short address of the pair with a random address.
pub(crate) fn at_random(pairs: &[Pair], random: Random24) -> Option<Short>
    requires short { AreShort pairs.now }
    requires room { length pairs.now ≤ 64 }
    ensures { MatchOption result
        (HasRandom pairs.now random → ⊥)
        (λ address. Has pairs.now (address, random)) }
{
    let wanted = Pair::sharing(random);
    for place in 0..pairs.len() as u8 {
        let pair = &pairs[usize::from(place)];
        if pair.shares_random(&wanted) {
            return Short::of(pair.address());
        }
    }
    None
}

/// Whether a pair has the short address.
pub(crate) fn has_address(pairs: &[Pair], address: Short) -> bool
    requires { length pairs.now ≤ 64 }
    ensures value { IsTrue result ↔ HasAddress pairs.now address }
    ensures short { address < 64 }
{
    at_address(pairs, address).is_some()
}

/// Whether a pair has the random address.
pub(crate) fn has_random(pairs: &[Pair], random: Random24) -> bool
    requires short { AreShort pairs.now }
    requires room { length pairs.now ≤ 64 }
    ensures { IsTrue result ↔ HasRandom pairs.now random }
{
    at_random(pairs, random).is_some()
}

/// For each of the 64 short addresses, whether a pair has it.
pub(crate) fn marks(pairs: &[Pair]) -> [bool; ROOM]
    requires short { AreShort pairs.now }
    requires room { length pairs.now ≤ 64 }
    ensures { Marks pairs.now result }
{
    let mut marks = [false; ROOM];
    for place in 0..pairs.len() as u8 {
        marks[usize::from(pairs[usize::from(place)].address())] = true;
    }
    marks
}

/// For each of the 64 short addresses, whether a pair may have it for a random address that none of the others has.
///
/// It goes over both lists once, and looks at the one of the others that has the same short address. If it marks
/// nothing that is sure; it may mark more, if another address has the number there.
pub(crate) fn maybe_unmatched(pairs: &[Pair], others: &[Pair]) -> [bool; ROOM]
    requires short { AreShort pairs.now }
    requires room { length pairs.now ≤ 64 }
    requires others_short { AreShort others.now }
    requires others_room { length others.now ≤ 64 }
    ensures { MayBeUnmatched pairs.now others.now result }
{
    let places = places(others);
    let mut marks = [false; ROOM];
    for place in 0..pairs.len() as u8 {
        let pair = &pairs[usize::from(place)];
        let address = usize::from(pair.address());
        if !shares_random_at(others, places[address], pair) {
            marks[address] = true;
        }
    }
    marks
}

/// For each of the 64 short addresses, the place of the last pair that has it; 64 if none has.
fn places(pairs: &[Pair]) -> [u8; ROOM]
    requires short { AreShort pairs.now }
    requires room { length pairs.now ≤ 64 }
{
    let mut places = [ROOM as u8; ROOM];
    for place in 0..pairs.len() as u8 {
        places[usize::from(pairs[usize::from(place)].address())] = place;
    }
    places
}

/// Whether the pair at a place, if one is there, has the random address of this one.
#[inline(always)]
fn shares_random_at(pairs: &[Pair], place: u8, wanted: &Pair) -> bool
    ensures { result ≡ true → HasRandom pairs.now wanted.now.1 }
{
    let place = usize::from(place);
    place < pairs.len() && pairs[place].shares_random(wanted)
}

/// Where a pair stands.
pub(crate) fn place_of(pairs: &[Pair], wanted: Pair) -> Option<usize>
    ensures { MatchOption result
        (Has pairs.now wanted → ⊥)
        (λ place. (place < length pairs.now) × (slice_index_or pairs.now place wanted ≡ wanted)) }
{
    for place in 0..pairs.len() {
        if pairs[place].is(wanted) {
            return Some(place);
        }
    }
    None
}

/// Whether both are the same pairs in the same order.
pub(crate) fn are_same(pairs: &[Pair], others: &[Pair]) -> bool
    ensures { IsTrue result ↔ (pairs.now ≡ others.now) }
{
    if pairs.len() != others.len() {
        return false;
    }
    for place in 0..pairs.len() {
        if !pairs[place].is(others[place]) {
            return false;
        }
    }
    true
}

/// Whether pairs are the others with one more as the last.
pub(crate) fn are_with(pairs: &[Pair], others: &[Pair], last: Pair) -> bool
    ensures { IsTrue result ↔ (pairs.now ≡ others.now ++ last ∷ []) }
{
    match pairs.split_last() {
        Some((end, front)) => end.is(last) && are_same(front, others),
        None => false,
    }
}

/// Whether pairs are these, one part after the other.
pub(crate) fn are_both(pairs: &[Pair], front: &[Pair], rest: &[Pair]) -> bool
    ensures { IsTrue result ↔ (pairs.now ≡ front.now ++ rest.now) }
{
    if pairs.len() < front.len() {
        return false;
    }
    let (first, second) = pairs.split_at(front.len());
    are_same(first, front) && are_same(second, rest)
}

/// Why a pair may not be added to these; None if it may.
pub(crate) fn taken(pairs: &[Pair], address: Short, random: Random24) -> Option<AddError>
    requires short { AreShort pairs.now }
    requires room { length pairs.now ≤ 64 }
    ensures fresh { (result ≡ None) ↔ IsFresh pairs.now (address, random) }
    ensures address_taken { (result ≡ Some AddError.AddressTaken) ↔ HasAddress pairs.now address }
    ensures random_taken { (result ≡ Some AddError.RandomTaken)
        ↔ ((HasAddress pairs.now address → ⊥) × HasRandom pairs.now random) }
    ensures reserved { result ≡ Some AddError.NotReserved → ⊥ }
{
    if has_address(pairs, address) {
        Some(AddError::AddressTaken)
    } else if has_random(pairs, random) {
        Some(AddError::RandomTaken)
    } else {
        None
    }
}

/// Why a pair may not be taken out of these; None if it may.
pub(crate) fn not_there(pairs: &[Pair], address: Short, random: Random24) -> Option<AddError>
    ensures there { (result ≡ None) ↔ Has pairs.now (address, random) }
    ensures not_reserved { (result ≡ Some AddError.NotReserved) ↔ (Has pairs.now (address, random) → ⊥) }
    ensures refusal { IfSome result (λ e. e ≡ AddError.NotReserved) }
{
    match place_of(pairs, Pair::of(address, random)) {
        Some(_) => None,
        None => Some(AddError::NotReserved),
    }
}

/// Whether a pair stands among these.
pub(crate) fn has_pair(pairs: &[Pair], address: Short, random: Random24) -> bool
    ensures { IsTrue result ↔ Has pairs.now (address, random) }
{
    not_there(pairs, address, random).is_none()
}
